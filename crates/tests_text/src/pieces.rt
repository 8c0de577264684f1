// Pieces: a line for each text, with how many ops its plan has, a task and its pieces. `repeat:3x2` runs the two pieces behind it three times, `await:0+1`
// looks one phase ahead, and `reg:1,0` makes task 1 a member of phaser 0.
use crate::program_texts::program_of;
use armus_base::{Offset, Op, PhaserId, Piece, Plan, TaskId};
use pl_plan::{PlanEnd, plan};
use std::alloc::Global;
use std::test::Fail;
use tests_rows::{columns, cut, number};

const ROWS: &str = "\
p = newPhaser(); loop 1 { adv(p); }$2$0$make:0 repeat:1x1 adv:0\n\
p = newPhaser(); loop 3 { adv(p); await(p); }$7$0$make:0 repeat:3x2 adv:0 await:0\n\
p = newPhaser(); loop 5 { loop 0 { adv(zz); } adv(p); }$6$0$make:0 repeat:5x1 adv:0\n\
p = newPhaser(); loop 2 { skip; loop 4 { skip; } adv(p); }$3$0$make:0 repeat:2x1 adv:0\n\
p = newPhaser(); loop 2 { loop 65535 { } adv(p); }$3$0$make:0 repeat:2x1 adv:0\n\
p = newPhaser(); loop 2 { loop 3 { adv(p); skip; } await(p); }$9$0$make:0 repeat:2x3 repeat:3x1 adv:0 await:0\n\
p = newPhaser(); loop 2 { loop 2 { loop 2 { adv(p); } } }$9$0$make:0 repeat:2x3 repeat:2x2 repeat:2x1 adv:0\n\
loop 0 { adv(zz); }$0$0$\n\
loop 3 { }$0$0$\n\
p = newPhaser(); loop 3 { skip; }$1$0$make:0\n\
p = newPhaser(); loop 5 { loop 0 { adv(p); } }$1$0$make:0\n\
p = newPhaser(); loop 2 { adv(p); loop 0 { dereg(p); } }$3$0$make:0 adv:0 adv:0\n\
p = newPhaser(); loop 2 { loop 3 { adv(p); } loop 0 { dereg(p); } }$7$0$make:0 repeat:3x1 adv:0 repeat:3x1 adv:0\n\
p = newPhaser(); loop 2 { t = newTid(); loop 3 { adv(p); } }$7$0$make:0 repeat:3x1 adv:0 repeat:3x1 adv:0\n\
p = newPhaser(); loop 2 { p = newPhaser(); loop 2 { adv(p); } }$7$0$make:0 make:1 repeat:2x1 adv:1 make:2 repeat:2x1 adv:2\n\
pl 2; p = newPhaser(); t = newTid(); reg(t, p); fork(t) { loop 2 { adv(p); await(p - 1); } } loop 2 { adv(p); await(p + 0); }$13$0$make:0 reg:1,0 fork:1 repeat:2x2 adv:0 await:0+0 drop:0\n\
pl 2; p = newPhaser(); t = newTid(); reg(t, p); fork(t) { loop 2 { adv(p); await(p - 1); } } loop 2 { adv(p); await(p + 0); }$13$1$repeat:2x2 adv:0 await:0-1 drop:0\n\
pl 2; p = newPhaser(); q = newPhaser(); loop 2 { adv(p); }$6$0$make:0 make:1 repeat:2x1 adv:0 drop:0 drop:1\n\
p = newPhaser(); #64#loop 1 { #1#adv(p); #64#} $2$0$make:0 repeat:1x64 repeat:1x63 repeat:1x62 repeat:1x61 repeat:1x60 repeat:1x59 repeat:1x58 repeat:1x57 repeat:1x56 repeat:1x55 repeat:1x54 repeat:1x53 repeat:1x52 repeat:1x51 repeat:1x50 repeat:1x49 repeat:1x48 repeat:1x47 repeat:1x46 repeat:1x45 repeat:1x44 repeat:1x43 repeat:1x42 repeat:1x41 repeat:1x40 repeat:1x39 repeat:1x38 repeat:1x37 repeat:1x36 repeat:1x35 repeat:1x34 repeat:1x33 repeat:1x32 repeat:1x31 repeat:1x30 repeat:1x29 repeat:1x28 repeat:1x27 repeat:1x26 repeat:1x25 repeat:1x24 repeat:1x23 repeat:1x22 repeat:1x21 repeat:1x20 repeat:1x19 repeat:1x18 repeat:1x17 repeat:1x16 repeat:1x15 repeat:1x14 repeat:1x13 repeat:1x12 repeat:1x11 repeat:1x10 repeat:1x9 repeat:1x8 repeat:1x7 repeat:1x6 repeat:1x5 repeat:1x4 repeat:1x3 repeat:1x2 repeat:1x1 adv:0\n\
p = newPhaser(); #45#loop 1 { #19#loop 2 { #1#adv(p); #64#} $524289$0$make:0 repeat:1x64 repeat:1x63 repeat:1x62 repeat:1x61 repeat:1x60 repeat:1x59 repeat:1x58 repeat:1x57 repeat:1x56 repeat:1x55 repeat:1x54 repeat:1x53 repeat:1x52 repeat:1x51 repeat:1x50 repeat:1x49 repeat:1x48 repeat:1x47 repeat:1x46 repeat:1x45 repeat:1x44 repeat:1x43 repeat:1x42 repeat:1x41 repeat:1x40 repeat:1x39 repeat:1x38 repeat:1x37 repeat:1x36 repeat:1x35 repeat:1x34 repeat:1x33 repeat:1x32 repeat:1x31 repeat:1x30 repeat:1x29 repeat:1x28 repeat:1x27 repeat:1x26 repeat:1x25 repeat:1x24 repeat:1x23 repeat:1x22 repeat:1x21 repeat:1x20 repeat:2x19 repeat:2x18 repeat:2x17 repeat:2x16 repeat:2x15 repeat:2x14 repeat:2x13 repeat:2x12 repeat:2x11 repeat:2x10 repeat:2x9 repeat:2x8 repeat:2x7 repeat:2x6 repeat:2x5 repeat:2x4 repeat:2x3 repeat:2x2 repeat:2x1 adv:0\n\
p = newPhaser(); loop 65535 { #16#adv(p); #1#} #15#adv(p); $1048576$0$make:0 repeat:65535x16 adv:0 adv:0 adv:0 adv:0 adv:0 adv:0 adv:0 adv:0 adv:0 adv:0 adv:0 adv:0 adv:0 adv:0 adv:0 adv:0 adv:0 adv:0 adv:0 adv:0 adv:0 adv:0 adv:0 adv:0 adv:0 adv:0 adv:0 adv:0 adv:0 adv:0 adv:0\n\
";

fn pair(text: &str, sign: &str) -> (u32, u32) {
    let (first, second) = cut(text, sign);
    (number(first), number(second))
}

fn awaits(text: &str) -> Op {
    let (p, off) = if let Some((p, k)) = text.split_once("+") {
        (p, Offset::Ahead(number(k)))
    } else if let Some((p, k)) = text.split_once("-") {
        (p, Offset::Back(number(k)))
    } else {
        (text, Offset::Here)
    };
    Op::Await {
        p: PhaserId(number(p)),
        off,
    }
}

fn registers(text: &str) -> Op {
    let (c, p) = pair(text, ",");
    Op::Reg {
        c: TaskId(c),
        p: PhaserId(p),
    }
}

fn op(kind: &str, text: &str) -> Op {
    let p = PhaserId(number(text));
    match kind {
        "make" => Op::Make { p },
        "adv" => Op::Adv { p },
        "drop" => Op::Drop { p },
        "fork" => Op::Fork {
            c: TaskId(number(text)),
        },
        "reg" => registers(text),
        _ => awaits(text),
    }
}

fn piece(word: &str) -> Piece {
    let (kind, text) = cut(word, ":");
    if kind == "repeat" {
        let (k, len) = pair(text, "x");
        return Piece::Repeat { k, len };
    }
    Piece::Op(op(kind, text))
}

fn are_pieces(pieces: &[Piece], words: &str) -> bool {
    let mut rest = pieces;
    for word in words.split_whitespace() {
        match rest {
            [first, others @ ..] if *first == piece(word) => rest = others,
            _ => return false,
        }
    }
    rest.is_empty()
}

pub(crate) fn has_pieces(plan: &Plan, t: u32, words: &str) -> bool {
    t < plan.tasks() && are_pieces(plan.pieces(TaskId(t)), words)
}

fn is_met(alloc: Global, row: &str) -> Result<bool, PlanEnd> {
    let (text, ops, rest) = columns(row, "$");
    let (t, words) = cut(rest, "$");
    let plan = plan(alloc, &program_of(alloc, text)?)?;
    Ok(plan.ops() == number(ops) && has_pieces(&plan, number(t), words))
}

#[test]
fn pieces_of_codes(rt: HostRuntime) -> Result<(), Fail> {
    for row in ROWS.lines() {
        assert!(rt; is_met(rt.alloc(), row)?, "{row}");
    }
    Ok(())
}
