// Statements: how many a worked kernel has, in all and at its own level; where those of a text begin; and the name in one.
use pl_syntax::{MAX_PARSED_BYTES, ParseEnd, Program, Stmt, parse, statement_offsets};
use std::alloc::Global;
use std::test::Fail;
use tests_rows::{bytes_of, cut, number, numbers};

const KERNELS: &str = "\
pc = newPhaser();~pb = newPhaser();~loop 3 {~  t = newTid();~  reg(t, pc);~  reg(t, pb);~  fork(t) {~    loop 2 {~      skip; // read the neighbours~      adv(pc);~      await(pc);~      skip; // write the mean~      adv(pc);~      await(pc);~    }~    dereg(pc);~    dereg(pb);~  }~}~adv(pb);~await(pb);~$18 5\n\
pc = newPhaser();~pb = newPhaser();~loop 3 {~  t = newTid();~  reg(t, pc);~  reg(t, pb);~  fork(t) {~    loop 2 {~      skip; // read the neighbours~      adv(pc);~      await(pc);~      skip; // write the mean~      adv(pc);~      await(pc);~    }~    dereg(pc);~    dereg(pb);~  }~}~dereg(pc);~adv(pb);~await(pb);~$19 6\n\
a = newPhaser();~b = newPhaser();~c = newPhaser();~d = newPhaser();~t = newTid(); reg(t, a); reg(t, b); reg(t, c); reg(t, d);~fork(t) { adv(a); await(a); }~t = newTid(); reg(t, a); reg(t, b); reg(t, c); reg(t, d);~fork(t) { adv(b); await(b); }~t = newTid(); reg(t, a); reg(t, b); reg(t, c); reg(t, d);~fork(t) { adv(c); await(c); }~t = newTid(); reg(t, a); reg(t, b); reg(t, c); reg(t, d);~fork(t) { adv(d); await(d); }~dereg(a); dereg(b); dereg(c); dereg(d);~$40 32\n\
a = newPhaser();~b = newPhaser();~c = newPhaser();~t = newTid(); reg(t, a); reg(t, b); reg(t, c);~fork(t) { adv(a); await(a); }~t = newTid(); reg(t, a); reg(t, b); reg(t, c);~fork(t) { adv(b); await(b); }~t = newTid(); reg(t, a); reg(t, b); reg(t, c);~fork(t) { adv(c); await(c); }~dereg(a); dereg(b); dereg(c);~$27 21\n\
a = newPhaser();~b = newPhaser();~c = newPhaser();~t = newTid(); reg(t, a); reg(t, b); reg(t, c);~fork(t) { adv(a); await(a); }~t = newTid(); reg(t, a); reg(t, b);~fork(t) { adv(b); await(b); }~dereg(a); dereg(b);~adv(c);~await(c);~$20 16\n\
p = newPhaser();~t = newTid(); reg(t, p);~fork(t) { skip; }~adv(p);~await(p);~$7 6\n\
p = newPhaser();~t = newTid();~reg(t, p);~adv(p);~await(p);~$5 5\n\
p = newPhaser();~t = newTid();~reg(t, p);~fork(t) { loop 2 { adv(p); await(p); } }~loop 2 { adv(p); await(p); }~$10 5\n\
a = newPhaser();~b = newPhaser();~t = newTid(); reg(t, a); reg(t, b);~fork(t) { adv(a); adv(b); await(b); }~adv(a);~await(a);~adv(b);~$12 9\n\
a = newPhaser();~b = newPhaser();~t = newTid();~reg(t, a);~reg(t, b);~fork(t) { adv(b); await(b); }~adv(a);~await(a);~$10 8\n\
a = newPhaser();~b = newPhaser();~t = newTid(); reg(t, a); reg(t, b);~fork(t) { adv(a); await(a); }~t = newTid(); reg(t, a); reg(t, b);~fork(t) { adv(b); await(b); }~t = newTid();~fork(t) { u = newTid(); fork(u) { c = newPhaser(); } }~dereg(a); dereg(b);~$21 14\n\
t = newTid(); fork(t) { x = newPhaser(); }~t = newTid(); fork(t) { x = newPhaser(); }~$6 4\n\
";

// Comments hold no statement.
const OFFSETS: &str = "\
$\n\
skip;skip;$0 5\n\
loop 2{}skip;$0 8\n\
p = newPhaser(); loop 2 { adv(p); }~fork(t) { }$0 17 26 36\n\
#1# // skip;~ skip; // skip;$11\n\
pl 2; await(p+1);$6\n\
pl = newTid();$0\n\
loop 1 { loop 0 { } fork(x) { skip; } }\r~\tskip;$0 9 20 30 42\n\
";

// Whether the text has so many statements, in all and at its own level.
fn has_statements(alloc: Global, text: &[u8], wanted: &str) -> Result<bool, ParseEnd> {
    if text.len() > MAX_PARSED_BYTES {
        return Ok(false);
    }
    let program = parse(alloc, text)?;
    let (all, own) = cut(wanted, " ");
    Ok(program.body.statements() == number(all) && program.body.as_slice().len() == number(own))
}

#[test]
fn kernels(rt: HostRuntime) -> Result<(), Fail> {
    for row in KERNELS.lines() {
        let (text, wanted) = cut(row, "$");
        let text = bytes_of(rt.alloc(), text)?;
        assert!(rt; has_statements(rt.alloc(), &text, wanted)?, "{row}");
    }
    Ok(())
}

fn begin_so(alloc: Global, text: &[u8], wanted: &str) -> Result<bool, ParseEnd> {
    if text.len() > MAX_PARSED_BYTES {
        return Ok(false);
    }
    let program = parse(alloc, text)?;
    let wanted = numbers(alloc, wanted)?;
    Ok(statement_offsets(alloc, text, &program)?.as_slice() == wanted.as_slice())
}

#[test]
fn offsets_of_statements(rt: HostRuntime) -> Result<(), Fail> {
    for row in OFFSETS.lines() {
        let (text, wanted) = cut(row, "$");
        let text = bytes_of(rt.alloc(), text)?;
        assert!(rt; begin_so(rt.alloc(), &text, wanted)?, "{row}");
    }
    Ok(())
}

fn is_named(program: &Program, wanted: &str) -> bool {
    match program.body.as_slice() {
        [Stmt::Adv { x }] => x.as_bytes() == wanted.as_bytes(),
        _ => false,
    }
}

#[test]
fn names(rt: HostRuntime) -> Result<(), Fail> {
    let program = parse(rt.alloc(), b"adv(pc_2);")?;
    assert!(rt; is_named(&program, "pc_2"));
    Ok(())
}
