use fm_arena::Arena;
use fm_base::Kind;
use fm_mono::Mono;
use fm_visit::Visit;
use std::test::Fail;

#[test]
fn words_are_put_and_got_in_one_visit(rt: HostRuntime) -> Result<(), Fail> {
    let mut memory = Mono::make(rt.alloc(), 64);
    let arena = Arena::start(&rt, &mut memory, Kind::Confined)?;
    let s = arena.allocate(&rt, &mut memory, 32, 8)?;
    let visit = Visit::enter(&mut memory, s.arena())?;
    let mut words = [0; 3];
    let put = visit.put_words(&mut memory, &s, 0, &[3, 1, 4, 1]);
    let got = visit.get_words(&mut memory, &s, 8, &mut words);
    let last = visit.get_word(&mut memory, &s, 24);
    visit.leave(&mut memory);
    assert_eq!(rt; (put, got, last), (Ok(()), Ok(()), Ok(1)));
    assert_eq!(rt; words, [1, 4, 1]);
    Ok(())
}
