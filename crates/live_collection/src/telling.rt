//! How the writer and a reader tell each other what they have seen.
ghost use Rattle.std.specs.Prelude.{◌≡◌};
ghost use mathlib.Core.List.{IsPrefix};
ghost use Rattle.live_collection.specs.Histories.{appended};
ghost use Rattle.live_collection.specs.Sides.{IsHistoryOf, IsReaderOf, IsWriterOf, reader_made, reader_saw, writer_made, writer_saw};

use crate::live::{LiveCollection, Reader, Writer};

impl LiveCollection {
    /// From now on the writer has seen all that the reader had seen, and the reader all that the writer had seen. The appends
    /// that the reader had seen are the writer's own first ones. It takes no memory, and makes no call.
    pub fn tell(&self, writer: &mut Writer, reader: &mut Reader)
        requires writer { IsWriterOf self.now writer.old }
        requires reader { IsReaderOf self.now reader.old }
        ensures sides { IsWriterOf self.now writer.new × IsReaderOf self.now reader.new }
        ensures same { (writer_made writer.new ≡ writer_made writer.old)
            × (reader_made reader.new ≡ reader_made reader.old) × (reader.new.pass.number ≡ reader.old.pass.number) }
        ensures writer { IsPrefix (writer_saw writer.old) (writer_saw writer.new)
            × IsPrefix (reader_saw reader.old) (writer_saw writer.new) }
        ensures reader { IsPrefix (reader_saw reader.old) (reader_saw reader.new)
            × IsPrefix (writer_saw writer.old) (reader_saw reader.new) }
        ensures legal { IsHistoryOf self.now (writer_saw writer.new) × IsHistoryOf self.now (reader_saw reader.new) }
        ensures first { IsPrefix (appended (reader_saw reader.old)) (appended (writer_made writer.old)) }
    {
        self.lock.meet(&mut reader.pass, &mut writer.pass);
        self.lock.meet(&mut writer.pass, &mut reader.pass);
    }
}
