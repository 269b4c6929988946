// The commands of a script.
use crate::value::ValueText;
use fact_paths::{Name, SlotPath};

/// What a line of a script asks for.
#[derive(Drop)]
pub enum Command {
    /// `set SLOT VALUE`: answers the slot by the value that the text spells.
    Set(SlotPath, ValueText),
    /// `clear SLOT`: takes the slot's answer away.
    Clear(SlotPath),
    /// `open SLOT`: opens a collection with no members.
    OpenList(SlotPath),
    /// `add SLOT`: appends a member to a collection.
    Add(SlotPath),
    /// `remove SLOT #K`: takes member K, from 1 to 1,000,000, out of a collection.
    Remove(SlotPath, u32),
    /// `override SLOT VALUE`: overrides the slot by the value that the text spells.
    Override(SlotPath, ValueText),
    /// `release SLOT`: takes the slot's override away.
    Release(SlotPath),
    /// `undo`: goes back by one change.
    Undo,
    /// `redo`: goes forth by one change.
    Redo,
    /// `get SLOT`: asks for the slot's result.
    Get(SlotPath),
    /// `final SLOT`: asks whether the slot's answer is final.
    Final(SlotPath),
    /// `stamp SLOT`: asks for the number of the last change that touched the slot.
    Stamp(SlotPath),
    /// `touched`: asks how many slots the last change touched.
    Touched,
    /// `missing SLOT`: asks for the answers that the slot's result still wants.
    Missing(SlotPath),
    /// `watch NAME SLOT`: puts the watch of this name on the slot.
    Watch(Name, SlotPath),
    /// `unwatch NAME SLOT`: takes that watch out.
    Unwatch(Name, SlotPath),
    /// `quit`: ends the script.
    Quit,
}
