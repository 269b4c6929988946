// Shelves: files that are fetched by name.
ghost use Rattle.std.specs.Prelude.{◌≡◌};
ghost use Rattle.fg_io.specs.Outside.{ByFetch, FetchCause, Fetches, Files};

use crate::FetchFault;

/// Files by name. Whoever fetches hands in the source and the sink as they stand, so that what a shelf says of a fetch says also what
/// was read and written before it.
pub trait Shelf<S, K> {
    /// What it shows of a name, how often it has failed, and the name of the last fetch that did.
    /// The count stands still at the end of a `u64`.
    ghost files: { Self → Files };

    /// What a fetch of a name, with at most so many bytes and with this answer, makes of it, where source and sink stand so.
    ghost fetched: { ByFetch Self S K };

    /// The contents of a name, where they have at most `at_most` bytes.
    fn fetch(
        &mut self,
        script: &S,
        out: &K,
        name: &str,
        at_most: u64,
    ) -> Result<Vec<u8>, FetchFault>
        ensures content { Fetches ((files self.old).contents name.now) at_most result }
        ensures kept { (files self.new).contents ≡ (files self.old).contents }
        ensures cause { FetchCause name.now (files self.old) (files self.new) result }
        ensures call { fetched self.old script.now out.now name.now at_most result self.new };
}
