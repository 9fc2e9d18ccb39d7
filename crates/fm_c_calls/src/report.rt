ghost use Rattle.std.specs.Prelude.{◌≡◌};
ghost use Rattle.fm_c_calls.specs.Reports.{number_of, refused, report_of};

use fm_base::Refusal;

/// What came of a call.
#[repr(C)]
#[derive(Clone, Copy, Debug, PartialEq, Eq)]
pub struct Report {
    /// 0 where the call was answered, else the refusal's number.
    pub number: u64,
    /// How many arguments the refusal has: 0, 1 or 2.
    pub arguments: u64,
    /// The first of them; 0 where there is none.
    pub first: u64,
    /// The second of them; 0 where there is none.
    pub second: u64,
    /// How long the whole output is, in bytes of a text or in items of a list; 0 where the call was refused.
    pub length: u64,
}

impl Report {
    /// Tells what came of a call, and answers the report's number.
    pub fn tell(&mut self, came: Result<u64, Refusal>) -> u64
        ensures report { self.new ≡ report_of came }
        ensures number { result ≡ number_of came }
    {
        *self = match came {
            Ok(length) => Report {
                number: 0,
                arguments: 0,
                first: 0,
                second: 0,
                length,
            },
            Err(refusal) => Report::of_refusal(refusal),
        };
        self.number
    }

    fn of_refusal(refusal: Refusal) -> Report
        ensures { result ≡ refused refusal }
    {
        let number = refusal.number();
        match refusal {
            Refusal::CannotClose(kind) => Report::with_one(number, kind.number()),
            Refusal::MemberMisaligned(index, offset) => Report {
                number,
                arguments: 2,
                first: index,
                second: offset,
                length: 0,
            },
            Refusal::Held(n)
            | Refusal::NoRoom(n)
            | Refusal::AlignmentBelow(n)
            | Refusal::NotGroup(n)
            | Refusal::NoMember(n)
            | Refusal::NotSequence(n)
            | Refusal::IndexOut(n)
            | Refusal::StillOpen(n)
            | Refusal::BadStep(n)
            | Refusal::BadShape(n)
            | Refusal::BadQuery(n)
            | Refusal::Ragged(n)
            | Refusal::BadScript(n)
            | Refusal::NotText(n) => Report::with_one(number, n),
            _ => Report {
                number,
                arguments: 0,
                first: 0,
                second: 0,
                length: 0,
            },
        }
    }

    fn with_one(number: u64, argument: u64) -> Report
        ensures { result ≡ record { number = number; arguments = 1; first = argument; second = 0; length = 0 } }
    {
        Report {
            number,
            arguments: 1,
            first: argument,
            second: 0,
            length: 0,
        }
    }
}
