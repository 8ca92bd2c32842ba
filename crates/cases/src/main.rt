// Plays the scope's marked cases A to L, and a preemption, through the dispatcher's methods; what it prints is held to the file stdout.
#![tactic(auto)]

use dispatch::{State, Stepped};
use rules::{Numbered, Priority};
use std::io;

// An event, its answer and its report; the state goes on to the next event.
fn play(rt: &impl Print, event: &str, stepped: Stepped) -> io::Result<State> {
    let answer = stepped.answer.number();
    let report = stepped.report.number();
    print!(rt; "{event} {answer} {report}")?;
    Ok(stepped.state)
}

// A case begins with its letter and a fresh start.
fn begin(rt: &impl Print, letter: &str, bases: &[u8], ceilings: &[u8]) -> io::Result<State> {
    let start = State::fresh(bases, ceilings);
    let answer = start.answer.number();
    print!(rt; "{letter}: fresh {answer}")?;
    Ok(start.state)
}

fn print_runner(rt: &impl Print, state: State) -> io::Result<()> {
    match state.running() {
        None => print!(rt; ", runs nobody"),
        Some(t) => print!(rt; ", runs {t}"),
    }
}

// Beside print_runner: what is printed is a literal, so one function of both would print by parts, no plainer.
fn print_entry(rt: &impl Print, entry: Option<u8>) -> io::Result<()> {
    match entry {
        Some(t) => print!(rt; " {t}"),
        None => print!(rt; " -"),
    }
}

// The ready queue for p, from the head on.
fn print_queue(rt: &impl Print, state: State, p: Priority) -> io::Result<()> {
    let priority = p.0;
    print!(rt; ", queue {priority}:")?;
    for i in 0..state.queue_length(p) as u64 {
        print_entry(rt, state.queue_entry(p, i))?;
    }
    Ok(())
}

fn end(rt: &impl Print) -> io::Result<()> {
    println!(rt; "")
}

// "bases 10, 20, 10 fresh: 1 runs, queue 10 is 0, 2"
fn case_a(rt: &impl Print) -> io::Result<()> {
    let s = begin(rt, "A", &[10, 20, 10], &[])?;
    print_runner(rt, s)?;
    print_queue(rt, s, Priority(10))?;
    end(rt)
}

// "A then Set 1, 10: 0 runs, queue 2, 1"
// A function for each case, its sentence above it: b, c and the last differ in numbers alone, but are read one by one.
fn case_b(rt: &impl Print) -> io::Result<()> {
    let s = begin(rt, "B", &[10, 20, 10], &[])?;
    let s = play(rt, ", set(1, 10)", s.set(1, Priority(10)))?;
    print_runner(rt, s)?;
    print_queue(rt, s, Priority(10))?;
    end(rt)
}

// "A then Set 0, 10", since 2026-04: "1 runs, queue 10 is 2, 0"
fn case_c(rt: &impl Print) -> io::Result<()> {
    let s = begin(rt, "C", &[10, 20, 10], &[])?;
    let s = play(rt, ", set(0, 10)", s.set(0, Priority(10)))?;
    print_runner(rt, s)?;
    print_queue(rt, s, Priority(10))?;
    end(rt)
}

// "Enter at the ceiling: 0; one above: 8"
fn case_d(rt: &impl Print, side: &str, base: u8) -> io::Result<()> {
    let s = begin(rt, side, &[base], &[10])?;
    let s = play(rt, ", enter(0)", s.enter(0))?;
    print_runner(rt, s)?;
    end(rt)
}

// "bases 10, 10, Delay 0: 1 runs, queue 0"
fn case_e(rt: &impl Print) -> io::Result<()> {
    let s = begin(rt, "E", &[10, 10], &[])?;
    let s = play(rt, ", delay(0)", s.delay(0))?;
    print_runner(rt, s)?;
    print_queue(rt, s, Priority(10))?;
    end(rt)
}

// "due 5: Clock 4 wakes nobody, 5 does"
fn case_f(rt: &impl Print) -> io::Result<()> {
    let s = begin(rt, "F", &[10], &[])?;
    let s = play(rt, ", delay(5)", s.delay(5))?;
    let s = play(rt, ", clock(4)", s.clock(4))?;
    print_runner(rt, s)?;
    let s = play(rt, ", clock(5)", s.clock(5))?;
    print_runner(rt, s)?;
    end(rt)
}

// "Clock now: 0; now - 1: 4"
fn case_g(rt: &impl Print) -> io::Result<()> {
    let s = begin(rt, "G", &[10], &[])?;
    let s = play(rt, ", clock(5)", s.clock(5))?;
    let s = play(rt, ", clock(5)", s.clock(5))?;
    let s = play(rt, ", clock(4)", s.clock(4))?;
    print_runner(rt, s)?;
    end(rt)
}

// 2026-08: a leap, and "Exactly that many is taken"
fn case_g_leap(rt: &impl Print) -> io::Result<()> {
    let s = begin(rt, "G leap", &[10], &[])?;
    let s = play(rt, ", clock(7)", s.clock(7))?;
    let s = play(rt, ", clock(86400008)", s.clock(86400008))?;
    let s = play(rt, ", clock(86400007)", s.clock(86400007))?;
    print_runner(rt, s)?;
    end(rt)
}

// "Delay 0 inside: 7"
fn case_h(rt: &impl Print) -> io::Result<()> {
    let s = begin(rt, "H", &[10], &[20])?;
    let s = play(rt, ", enter(0)", s.enter(0))?;
    let s = play(rt, ", delay(0)", s.delay(0))?;
    print_runner(rt, s)?;
    end(rt)
}

// "Suspend with permit runs on"
fn case_i(rt: &impl Print) -> io::Result<()> {
    let s = begin(rt, "I", &[10, 10], &[])?;
    let s = play(rt, ", release(0)", s.release(0))?;
    let s = play(rt, ", suspend", s.suspend())?;
    print_runner(rt, s)?;
    print_queue(rt, s, Priority(10))?;
    end(rt)
}

// "outer object left first: 9"
fn case_j(rt: &impl Print) -> io::Result<()> {
    let s = begin(rt, "J", &[10], &[20, 20])?;
    let s = play(rt, ", enter(0)", s.enter(0))?;
    let s = play(rt, ", enter(1)", s.enter(1))?;
    let s = play(rt, ", leave(0)", s.leave(0))?;
    print_runner(rt, s)?;
    end(rt)
}

// "bases 10, 10, ceiling 20: Enter, Set 0, 10, Leave: 1 runs, queue 0"
fn case_k(rt: &impl Print) -> io::Result<()> {
    let s = begin(rt, "K", &[10, 10], &[20])?;
    let s = play(rt, ", enter(0)", s.enter(0))?;
    let s = play(rt, ", set(0, 10)", s.set(0, Priority(10)))?;
    let s = play(rt, ", leave(0)", s.leave(0))?;
    print_runner(rt, s)?;
    print_queue(rt, s, Priority(10))?;
    end(rt)
}

// "Set to 32: 0; to 33 or 0: 3"
fn case_l(rt: &impl Print) -> io::Result<()> {
    let s = begin(rt, "L", &[10], &[])?;
    let s = play(rt, ", set(0, 32)", s.set(0, Priority(32)))?;
    let s = play(rt, ", set(0, 33)", s.set(0, Priority(33)))?;
    let s = play(rt, ", set(0, 0)", s.set(0, Priority(0)))?;
    print_runner(rt, s)?;
    end(rt)
}

// 2026-10: a Set on another task that then preempts, which is 1; the old task is the head of its queue
fn case_preempted(rt: &impl Print) -> io::Result<()> {
    let s = begin(rt, "Preempted", &[10, 5, 10], &[])?;
    let s = play(rt, ", set(1, 20)", s.set(1, Priority(20)))?;
    print_runner(rt, s)?;
    print_queue(rt, s, Priority(10))?;
    end(rt)
}

fn main(rt: HostRuntime) -> io::Result<()> {
    case_a(&rt)?;
    case_b(&rt)?;
    case_c(&rt)?;
    case_d(&rt, "D at the ceiling", 10)?;
    case_d(&rt, "D one above", 11)?;
    case_e(&rt)?;
    case_f(&rt)?;
    case_g(&rt)?;
    case_g_leap(&rt)?;
    case_h(&rt)?;
    case_i(&rt)?;
    case_j(&rt)?;
    case_k(&rt)?;
    case_l(&rt)?;
    case_preempted(&rt)
}
