//! How a collection ends: its writer and all its readers are handed in, and what each had seen is a beginning of one history.
ghost use Rattle.std.specs.Prelude.{◌≡◌, ◌<◌, ◌∷◌, [], length, map, vec_capacity};
ghost use Rattle.live_collection.specs.Sides.{AreAllReaders, IsWriterOf};
ghost use Rattle.live_collection.specs.Steps.{Closes};

use crate::live::{LiveCollection, Reader, Writer};
use crate::object::LiveObject;
use turn_lock::TurnPass;

impl LiveCollection {
    /// Ends the collection, and tells how many series stand. It takes no memory, and waits for nobody.
    pub fn close(self, writer: Writer, readers: Vec<Reader>) -> u32
        requires writer { IsWriterOf self writer }
        requires readers { AreAllReaders self readers.items }
        ensures { Closes self writer readers.items result }
    {
        let passes = all_passes(writer, readers);
        let LiveCollection { lock, .. } = self;
        lock.close(passes).series()
    }
}

// The passes of the writer and of the readers, in the room that the writer kept.
fn all_passes(writer: Writer, readers: Vec<Reader>) -> Vec<TurnPass<LiveObject>>
    requires empty { writer.room.items ≡ [] }
    requires room { length readers.items < vec_capacity writer.room }
    ensures { result.items ≡ writer.pass ∷ map (λ r. r.pass) readers.items }
{
    let Writer {
        pass,
        room: mut passes,
    } = writer;
    passes.push_reserved(pass);
    for reader in readers {
        let Reader { pass, parts } = reader;
        drop(parts);
        passes.push_reserved(pass);
    }
    passes
}
