ghost use Rattle.std.specs.Prelude.{◌≡◌, ◌++◌, true, IfOk, OnOk};
ghost use Rattle.fm_base.specs.Arenas.{has_arena};
ghost use Rattle.fm_rule.specs.GivenBytes.{state_of};
ghost use Rattle.fm_script_lines.specs.Numbers.{number_at};
ghost use Rattle.fm_script_report.specs.Alive.{AreOpened, alive_at, alive_by, alive_of, arena_by};

use crate::arena::AliveArena;
use crate::given::Given;
use fm_base::ArenaId;
use fm_path_text::NameText;
use fm_rule::Finished;
use fm_script_lines::Numbers;
use fm_script_text::{Command, Line};
use std::alloc::{AllocError, Global};

/// The arenas that these lines open and that are alive at the end.
pub(crate) fn alive_arenas(
    alloc: Global,
    finished: &Finished,
    names: &Numbers,
    opened: &[Option<ArenaId>],
    lines: &[Line],
) -> Result<Vec<AliveArena>, AllocError>
    requires { AreOpened finished.now opened.now }
    ensures { IfOk result (λ alive. alive.items
        ≡ alive_of finished.now (arena_by (number_at names.now) opened.now) lines.now) }
{
    let mut alive = Vec::new(alloc);
    for line in lines {
        push_opened(alloc, &mut alive, finished, names, opened, &line.command)?;
    }
    Ok(alive)
}

/// Adds the arena that the command opens, if it is alive at the end.
fn push_opened(
    alloc: Global,
    alive: &mut Vec<AliveArena>,
    finished: &Finished,
    names: &Numbers,
    opened: &[Option<ArenaId>],
    command: &Command,
) -> Result<(), AllocError>
    requires { AreOpened finished.now opened.now }
    ensures { OnOk result (alive.new.items ≡ alive.old.items
        ++ alive_by finished.now (arena_by (number_at names.now) opened.now) command.now) }
{
    let Command::Open { name, .. } = command else {
        return Ok(());
    };
    let Some(id) = arena_of(names, opened, name) else {
        return Ok(());
    };
    push_alive(alloc, alive, finished, name, id)
}

/// The arena that the line which makes the name opened.
fn arena_of(names: &Numbers, opened: &[Option<ArenaId>], name: &NameText) -> Option<ArenaId>
    ensures { result ≡ arena_by (number_at names.now) opened.now name.now }
{
    let number = names.of(name)?;
    *opened.get(number)?
}

/// Adds this arena, if it is alive at the end.
fn push_alive(
    alloc: Global,
    alive: &mut Vec<AliveArena>,
    finished: &Finished,
    name: &NameText,
    id: ArenaId,
) -> Result<(), AllocError>
    requires { has_arena (state_of finished.now) id ≡ true }
    ensures { OnOk result (alive.new.items ≡ alive.old.items ++ alive_at finished.now name.now (Some id)) }
{
    let Ok(found) = finished.bytes_of(alloc, id) else {
        return Err(AllocError);
    };
    let Some(bytes) = found else {
        return Ok(());
    };
    let arena = AliveArena {
        name: name.clone()?,
        bytes: Given::of(bytes),
    };
    alive.push(arena)?;
    Ok(())
}
