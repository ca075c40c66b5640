//! A live collection with its one writer and its one reader: each group is appended and asked side by side, and then the writer
//! and the reader tell each other what they have seen.

ghost use Rattle.std.specs.Prelude.{◌≡◌, ◌+◌, ◌<◌, ◌≤◌, ◌^◌, All, IfOk, IfErr, List, length};
ghost use Rattle.std.specs.Thread.{IsSync};
ghost use Rattle.search_limits.specs.declared.numbers.TheConstants.{MOST_LEAF};
ghost use Rattle.series_core.specs.declared.rows.TheConstants.{MAX_LENGTH};
ghost use Rattle.live_collection.specs.Sides.{IsWriterOf, points_of};
ghost use Rattle.live_collection.specs.Steps.{Appends};
ghost use Rattle.live_run.specs.Loads.{FitsLength};
ghost use Rattle.live_run.specs.Replies.{CanAsk};
ghost use Rattle.live_run.specs.Dialogues.{AsksAll, CanAskAll, HasTaken, IsNew, IsDialogue, IsTextOfGroup, RefusesBatch, Stands, Takes};
ghost use Rattle.live_run.specs.Dialogues.{length_of};
ghost use Rattle.live_run.specs.Texts.{queries_of};

use crate::answering::{Answers, answer_all};
use crate::group::{Contents, QueryFile};
use crate::status::LiveStatus;
use breakpoints::Table;
use command_words::USUAL_LEAF;
use isax_word::Layout;
use live_collection::{AppendError, LiveCollection, Reader, Writer};
use outside::{Gate, NoMemory};
use search_limits::MOST_SEGMENTS;
use segment_sums::Cuts;
use series_core::Flat;
use std::alloc::Global;
use std::sync::Wait;
use std::thread::{Threads, join};
use subtree_build::Settings;

/// A live collection, between two groups of a script.
#[derive(Drop)]
pub struct Dialogue {
    live: LiveCollection,
    writer: Writer,
    reader: Reader,
    // The room that the end of the collection needs for its reader.
    room: Vec<Reader>,
    // The length of each series.
    points: u32,
    // How many queries were asked.
    asked: u64,
}

impl Dialogue {
    /// A dialogue over a new collection of series of `points` values.
    fn begin(alloc: Global, points: u32) -> Result<Dialogue, NoMemory>
        requires { (1 ≤ points) × (points ≤ MAX_LENGTH) }
        ensures { IfOk result (IsNew points) }
    {
        let (live, writer, mut room) = LiveCollection::begin(alloc, settings_of(points), 1)?;
        let Some(reader) = room.pop() else {
            unreachable!()
        };
        Ok(Dialogue {
            live,
            writer,
            reader,
            room,
            points,
            asked: 0,
        })
    }

    /// Appends the batch of a group while its queries are asked, and gives the text of their answers. Both run side by side
    /// where a thread is to be had, and else one after the other. It may wait for the collection's lock.
    pub fn take<H: Threads + Wait + Sync, G: Gate + Sync>(
        self,
        rt: &H,
        alloc: Global,
        contents: Contents,
        gate: &G,
        turn: u64,
    ) -> Result<(Dialogue, Vec<u8>), LiveStatus>
        requires dialogue { IsDialogue self }
        requires points { contents.batch.points ≡ self.points }
        requires askings { All (CanAsk self.points) contents.askings.items }
        requires numbers { self.asked + length (queries_of contents) < 2 ^ 64 }
        ensures takes { IfOk result (λ r. Takes self contents r.0) }
        ensures text { IfOk result (λ r. IsTextOfGroup self contents r.1.items) }
        ensures refused { IfErr result (RefusesBatch self contents.batch) }
    {
        let Dialogue {
            live,
            writer,
            reader,
            room,
            points,
            asked,
        } = self;
        let Contents { batch, askings } = contents;
        let ((mut writer, appended), (mut reader, answers)) = join(
            rt,
            || -> (Writer, Result<u32, AppendError>)
                requires { IsSync H.row × IsSync G.row × IsWriterOf live writer × (batch.points ≡ points_of live) }
                ensures { IsWriterOf live result.0 × Appends live batch writer result.0 result.1 }
            { append_side(rt, alloc, &live, writer, batch, gate, turn) },
            || -> (Reader, Result<Answers, NoMemory>)
                requires { IsSync H.row × IsSync G.row × CanAskAll live reader askings.items asked }
                ensures { AsksAll live reader result.0 askings.items asked result.1 }
            { answer_side(rt, alloc, &live, reader, &askings, asked, gate, turn) },
        );
        appended?;
        let Answers { text, next } = answers?;
        live.tell(&mut writer, &mut reader);
        let dialogue = Dialogue {
            live,
            writer,
            reader,
            room,
            points,
            asked: next,
        };
        Ok((dialogue, text))
    }

    /// Ends the dialogue and its collection.
    pub fn close(self)
        requires { IsDialogue self }
    {
        let Dialogue {
            live,
            writer,
            reader,
            room: mut readers,
            ..
        } = self;
        readers.push_reserved(reader);
        live.close(writer, readers);
    }
}

/// The length of the series of a dialogue, where one has begun.
pub fn length_of(dialogue: &Option<Dialogue>) -> Option<u32>
    ensures { result ≡ length_of dialogue.now }
{
    match dialogue {
        Some(dialogue) => Some(dialogue.points),
        None => None,
    }
}

/// The dialogue that has begun, or a new one over series of `points` values.
pub fn begun(alloc: Global, dialogue: Option<Dialogue>, points: u32) -> Result<Dialogue, NoMemory>
    requires limits { (1 ≤ points) × (points ≤ MAX_LENGTH) }
    ensures { (cs : List _) → Stands cs dialogue → FitsLength (length_of dialogue) points
        → IfOk result (λ s. HasTaken cs s × (s.points ≡ points)) }
{
    match dialogue {
        Some(dialogue) => Ok(dialogue),
        None => Dialogue::begin(alloc, points),
    }
}

// The settings of a collection of series of `points` values.
fn settings_of(points: u32) -> Settings
    requires { (1 ≤ points) × (points ≤ MAX_LENGTH) }
    ensures points { result.layout.cuts.row_length ≡ points }
    ensures leaf_size { (1 ≤ result.leaf_size) × (result.leaf_size ≤ MOST_LEAF) }
{
    Settings {
        layout: Layout {
            cuts: Cuts::new(points, points.min(MOST_SEGMENTS)),
            table: Table::Flat,
        },
        leaf_size: USUAL_LEAF,
    }
}

// The writer's side of a group.
fn append_side<H: Threads + Wait + Sync, G: Gate>(
    rt: &H,
    alloc: Global,
    live: &LiveCollection,
    mut writer: Writer,
    batch: Flat,
    gate: &G,
    turn: u64,
) -> (Writer, Result<u32, AppendError>)
    requires writer { IsWriterOf live.now writer }
    requires points { batch.points ≡ points_of live.now }
    ensures writer { IsWriterOf live.now result.0 }
    ensures appends { Appends live.now batch writer result.0 result.1 }
{
    gate.pass(0, turn);
    let appended = live.append(rt, alloc, &mut writer, batch);
    (writer, appended)
}

// The reader's side of a group.
fn answer_side<H: Wait, G: Gate>(
    rt: &H,
    alloc: Global,
    live: &LiveCollection,
    mut reader: Reader,
    askings: &[QueryFile],
    first: u64,
    gate: &G,
    turn: u64,
) -> (Reader, Result<Answers, NoMemory>)
    requires { CanAskAll live.now reader askings.now first }
    ensures { AsksAll live.now reader result.0 askings.now first result.1 }
{
    gate.pass(1, turn);
    let answers = answer_all(rt, alloc, live, &mut reader, askings, first);
    (reader, answers)
}
