//! Why calls of the crates below stop a run.

ghost use Rattle.std.specs.Prelude.{◌≡◌};
ghost use Rattle.fm_top.specs.Stops.{layout_stop, load_stop, or_stop, query_stop, script_stop};

use crate::outcome::stop::Stop;
use fm_base::Refusal;
use fm_top_load::LoadFault;

/// What was loaded or streamed of the file of this name.
pub fn of_file<'a, T>(file: &'a str, loaded: Result<T, LoadFault>) -> Result<T, Stop<'a>>
    ensures { result ≡ or_stop (load_stop file.entry) loaded }
{
    match loaded {
        Ok(loaded) => Ok(loaded),
        Err(LoadFault::Missing) => Err(Stop::Missing(file)),
        Err(LoadFault::TooLong) => Err(Stop::TooLong),
        Err(LoadFault::Ragged(rest)) => Err(Stop::Ragged(rest)),
        Err(LoadFault::Failed) => Err(Stop::Unread),
        // Files are loaded into arenas that want nothing but memory.
        Err(LoadFault::Memory | LoadFault::Refused(_)) => Err(Stop::Memory),
    }
}

/// The layout that a file has.
pub fn of_layout<'a, T>(layout: Result<T, Refusal>) -> Result<T, Stop<'a>>
    ensures { result ≡ or_stop layout_stop layout }
{
    match layout {
        Ok(layout) => Ok(layout),
        Err(Refusal::Memory) => Err(Stop::Memory),
        Err(refusal) => Err(Stop::LayoutRefused(refusal)),
    }
}

/// The plan of a query or of a path.
pub fn of_query<'a, T>(plan: Result<T, Refusal>) -> Result<T, Stop<'a>>
    ensures { result ≡ or_stop query_stop plan }
{
    match plan {
        Ok(plan) => Ok(plan),
        Err(Refusal::Memory) => Err(Stop::Memory),
        Err(refusal) => Err(Stop::QueryRefused(refusal)),
    }
}

/// The script that a file has.
pub fn of_script<'a, T>(script: Result<T, Refusal>) -> Result<T, Stop<'a>>
    ensures { result ≡ or_stop script_stop script }
{
    match script {
        Ok(script) => Ok(script),
        Err(Refusal::BadScript(line)) => Err(Stop::ScriptRefused(line)),
        // It is refused for want of memory alone.
        Err(_) => Err(Stop::Memory),
    }
}
