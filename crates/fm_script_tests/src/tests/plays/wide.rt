use super::plays;
use crate::tests::compared::same;
use crate::tests::written::push;
use itoa::Buffer;
use std::alloc::AllocGlobal;
use std::process::Abort;
use std::random::RandomSource;
use std::sync::Wait;
use std::thread::Threads;

fn push_all<R: Abort>(rt: &R, text: &mut String, first: &str, second: &str, third: &str) {
    push(rt, text, first);
    push(rt, text, second);
    push(rt, text, third);
}

/// A script, and what its run prints.
#[derive(Drop)]
struct Wide {
    text: String,
    printed: String,
}

impl Wide {
    /// A line that is answered so.
    fn push<R: Abort>(&mut self, rt: &R, who: &str, call: &str, reply: &str) {
        push_all(rt, &mut self.text, who, call, "\n");
        push_all(rt, &mut self.printed, who, call, " -> ");
        push_all(rt, &mut self.printed, reply, "\n", "");
    }

    /// A worker's lines, which add nothing so many times.
    fn push_worker<R: Abort>(&mut self, rt: &R, worker: u32, times: u32) {
        for _ in 0..times {
            self.push(rt, Buffer::new().format(worker), " add s long 0 0", "0");
        }
    }
}

/// One of so many workers, each with so many lines.
fn adding<R: Abort + AllocGlobal>(rt: &R, workers: u32, times: u32) -> Wide {
    let mut script = Wide {
        text: String::new(rt.alloc()),
        printed: String::new(rt.alloc()),
    };
    push(rt, &mut script.text, "pool 1 1 8 1 1\n");
    script.push(rt, "first", " open a shared", "ok");
    script.push(rt, "first", " alloc a s 8 8", "ok 0");
    for before in 0..workers {
        script.push_worker(rt, before + 1, times);
    }
    script.push(rt, "last", " close a", "ok");
    script
}

fn runs_whole<R: Abort + AllocGlobal + Threads + Wait + Sync + RandomSource>(
    rt: &R,
    workers: u32,
    times: u32,
) {
    let script = adding(rt, workers, times);
    same(rt, script.text.len() > 4096, true);
    plays(rt, script.text.as_str(), script.printed.as_str());
}

/// Where memory is ample none is wanting, also past 4,096 bytes and with many workers.
#[test]
fn wide_scripts_run_whole(rt: HostRuntime) {
    runs_whole(&rt, 1, 300);
    runs_whole(&rt, 7, 40);
    runs_whole(&rt, 16, 20);
}
