ghost use Rattle.fm_c_calls.specs.Located.{PlacesLeadInside};
ghost use Rattle.fm_c_calls.specs.Reports.{SaysRefusals};

/// Does nothing. What it promises holds of every refusal: its report is printed as the refusal is.
#[tactic(auto, using(crate::proofs::Outcomes::says_refusals))]
pub fn reports_say_refusals()
    ensures { SaysRefusals }
{}

/// Does nothing. What it promises holds of every resolved path: the numbers of its place lead into the record.
#[tactic(auto, using(crate::proofs::Inside::lead_inside))]
pub fn places_lead_inside()
    ensures { PlacesLeadInside }
{}
