// Reads the commands of more than one word, each from what stands behind its verb. Each has a function of its own, since a call
// clears all that its function may hold, whichever arm is taken. The commonest is written out where it is called.
ghost use Rattle.std.specs.Prelude.{◌≡◌};
ghost use Rattle.script_lines.specs.Parsing.{Gives, command_with};
ghost use Rattle.script_lines.specs.declared.verb.Verb.TheVariants as verbs;

use crate::command::Command;
use crate::fault::LineFault;
use crate::parts::{read_name_and_slot, read_slot, read_slot_and_member, read_slot_and_value};
use crate::verb::Verb;
use std::alloc::Global;

#[inline(always)]
fn read_set(alloc: Global, rest: &str) -> Result<Command, LineFault>
    ensures { Gives (command_with verbs.Set rest.now) result }
{
    let (slot, value) = read_slot_and_value(alloc, rest)?;
    Ok(Command::Set(slot, value))
}

fn read_clear(alloc: Global, rest: &str) -> Result<Command, LineFault>
    ensures { Gives (command_with verbs.Clear rest.now) result }
{
    Ok(Command::Clear(read_slot(alloc, rest)?))
}

fn read_open(alloc: Global, rest: &str) -> Result<Command, LineFault>
    ensures { Gives (command_with verbs.OpenList rest.now) result }
{
    Ok(Command::OpenList(read_slot(alloc, rest)?))
}

fn read_add(alloc: Global, rest: &str) -> Result<Command, LineFault>
    ensures { Gives (command_with verbs.Add rest.now) result }
{
    Ok(Command::Add(read_slot(alloc, rest)?))
}

fn read_remove(alloc: Global, rest: &str) -> Result<Command, LineFault>
    ensures { Gives (command_with verbs.Remove rest.now) result }
{
    let (slot, member) = read_slot_and_member(alloc, rest)?;
    Ok(Command::Remove(slot, member))
}

fn read_override(alloc: Global, rest: &str) -> Result<Command, LineFault>
    ensures { Gives (command_with verbs.Override rest.now) result }
{
    let (slot, value) = read_slot_and_value(alloc, rest)?;
    Ok(Command::Override(slot, value))
}

fn read_release(alloc: Global, rest: &str) -> Result<Command, LineFault>
    ensures { Gives (command_with verbs.Release rest.now) result }
{
    Ok(Command::Release(read_slot(alloc, rest)?))
}

fn read_get(alloc: Global, rest: &str) -> Result<Command, LineFault>
    ensures { Gives (command_with verbs.Get rest.now) result }
{
    Ok(Command::Get(read_slot(alloc, rest)?))
}

fn read_final(alloc: Global, rest: &str) -> Result<Command, LineFault>
    ensures { Gives (command_with verbs.Final rest.now) result }
{
    Ok(Command::Final(read_slot(alloc, rest)?))
}

fn read_stamp(alloc: Global, rest: &str) -> Result<Command, LineFault>
    ensures { Gives (command_with verbs.Stamp rest.now) result }
{
    Ok(Command::Stamp(read_slot(alloc, rest)?))
}

fn read_missing(alloc: Global, rest: &str) -> Result<Command, LineFault>
    ensures { Gives (command_with verbs.Missing rest.now) result }
{
    Ok(Command::Missing(read_slot(alloc, rest)?))
}

fn read_watch(alloc: Global, rest: &str) -> Result<Command, LineFault>
    ensures { Gives (command_with verbs.Watch rest.now) result }
{
    let (name, slot) = read_name_and_slot(alloc, rest)?;
    Ok(Command::Watch(name, slot))
}

fn read_unwatch(alloc: Global, rest: &str) -> Result<Command, LineFault>
    ensures { Gives (command_with verbs.Unwatch rest.now) result }
{
    let (name, slot) = read_name_and_slot(alloc, rest)?;
    Ok(Command::Unwatch(name, slot))
}

/// A command of more words, by its verb and what stands behind the first blank.
pub fn read_with(alloc: Global, verb: Verb, rest: &str) -> Result<Command, LineFault>
    ensures { Gives (command_with verb rest.now) result }
{
    match verb {
        Verb::Set => read_set(alloc, rest),
        Verb::Clear => read_clear(alloc, rest),
        Verb::OpenList => read_open(alloc, rest),
        Verb::Add => read_add(alloc, rest),
        Verb::Remove => read_remove(alloc, rest),
        Verb::Override => read_override(alloc, rest),
        Verb::Release => read_release(alloc, rest),
        Verb::Get => read_get(alloc, rest),
        Verb::Final => read_final(alloc, rest),
        Verb::Stamp => read_stamp(alloc, rest),
        Verb::Missing => read_missing(alloc, rest),
        Verb::Watch => read_watch(alloc, rest),
        Verb::Unwatch => read_unwatch(alloc, rest),
    }
}
