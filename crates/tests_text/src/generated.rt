// Generated texts: a line for a number of workers, with the whole text.
use armus_base::NoMemory;
use pl_generator::{gen_is_accepted, gen_text};
use std::alloc::Global;
use std::test::Fail;
use tests_rows::{bytes_of, cut, number};

const ROWS: &str = "\
3$pc = newPhaser();~pb = newPhaser();~loop 3 {~  t = newTid();~  reg(t, pc);~  reg(t, pb);~  fork(t) {~    loop 8 {~      adv(pc);~      await(pc);~    }~    dereg(pc);~    dereg(pb);~  }~}~adv(pb);~await(pb);~\n\
4$pc = newPhaser();~pb = newPhaser();~loop 4 {~  t = newTid();~  reg(t, pc);~  reg(t, pb);~  fork(t) {~    loop 8 {~      adv(pc);~      await(pc);~    }~    dereg(pc);~    dereg(pb);~  }~}~dereg(pc);~adv(pb);~await(pb);~\n\
";

fn is_generated(alloc: Global, workers: &str, text: &str) -> Result<bool, NoMemory> {
    let wanted = bytes_of(alloc, text)?;
    let found = gen_text(alloc, number(workers))?;
    Ok(found.as_slice() == wanted.as_slice())
}

#[test]
fn texts_of_workers(rt: HostRuntime) -> Result<(), Fail> {
    for row in ROWS.lines() {
        let (workers, text) = cut(row, "$");
        assert!(rt; is_generated(rt.alloc(), workers, text)?, "{row}");
    }
    gen_is_accepted();
    Ok(())
}
