use fm_arena::Arena;
use fm_base::Kind;
use fm_mono::Mono;
use fm_text::{SlicingAllocator, allocate_text, get_text, set_text};
use std::test::Fail;

#[test]
fn a_name_is_a_field_of_a_record(rt: HostRuntime) -> Result<(), Fail> {
    let mut memory = Mono::make(rt.alloc(), 64);
    let arena = Arena::start(&rt, &mut memory, Kind::Confined)?;
    let record = arena.allocate(&rt, &mut memory, 24, 8)?;
    let mut fields = SlicingAllocator::over(record);
    let number = fields.allocate(4, 4)?;
    let name = fields.allocate(16, 1)?;
    assert_eq!(rt; (number.size(), name.first(), fields.used()), (4, 4, 20));
    set_text(&rt, &mut memory, &name, 0, "Ada")?;
    let found = get_text(rt.alloc(), &mut memory, &name, 0)?;
    assert_eq!(rt; found.as_str(), "Ada");
    let whole = allocate_text(&rt, &mut memory, &arena, "Ada Lovelace")?;
    assert_eq!(rt; whole.size(), 13);
    Ok(())
}
