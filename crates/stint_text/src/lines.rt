ghost use Rattle.std.specs.Prelude.{◌≡◌, ◌<◌, ◌≤◌, [], length};
ghost use Rattle.tab_io.specs.Sinks.{Writes};
ghost use Rattle.tab_words.specs.Blocks.{PutsBehind};
ghost use Rattle.vcpu_names.specs.Names.{names_of};
ghost use Rattle.stint_text.specs.StintLine.{stint_line};
ghost use Rattle.stint_text.specs.NumbersLine.{numbers_line};

use crate::first_owner::first_owner;
use crate::line_parts::put_parts;
use crate::number_parts::put_three;
use crate::numbered::Numbered;
use line_bytes::{BLOCK, Block, Tail, make_room, tail_place, tails_of};
use std::marker::Model;
use tab_core::{CoreNo, Stint, Vcpu};
use tab_io::{Sink, WriteFault, write_all};
use table_form::Course;

/// The lines of a run, which are gathered and written many at once. Contracts see the names of the vCPUs
/// and the bytes that are gathered.
///
/// The owner of a stint's first tick is looked for near that of the core's stint before.
#[derive(Drop)]
pub struct StintLines<'a> {
    vcpus: &'a [Vcpu],
    tails: [Tail; 257],
    // of the block the first `count` bytes are gathered
    block: Block,
    count: usize,
    // for each core where the segment of its last stint's begin is in its row
    places: [usize; 32],
}

impl<'a> Model for StintLines<'a> {
    ghost use Rattle.std.specs.Prelude.{take};
    ghost use Rattle.vcpu_names.specs.Names.{names_of};
    ghost use Rattle.stint_text.specs.StintLines.{StintLinesView};
    ghost use Rattle.stint_text.specs.Inside.Gathered.{HoldsLines};

    ghost Value = { StintLinesView };

    ghost view = { λ lines. record {
      names = names_of lines.vcpus.now;
      gathered = take lines.count lines.block;
    } };

    ghost invariant = { λ lines. HoldsLines (names_of lines.vcpus.now) lines.tails lines.count };
}

impl<'a> StintLines<'a> {
    /// No lines, for these vCPUs.
    pub fn of(vcpus: &'a [Vcpu]) -> StintLines<'a>
        ensures names { result.names ≡ names_of vcpus.now }
        ensures none { result.gathered ≡ [] }
    {
        StintLines {
            vcpus,
            tails: tails_of(vcpus, b' '),
            block: [0; BLOCK],
            count: 0,
            places: [0; 32],
        }
    }

    /// Puts the line of a core's stint after the gathered ones, of which a prefix may be written.
    ///
    /// The core is below the course's cores, and the stint has a count of the course's events. A fault
    /// leaves a prefix of the lines in the sink. Nothing is settled.
    pub fn put_stint<K: Sink>(
        &mut self,
        sink: &mut K,
        course: &Course,
        core: CoreNo,
        stint: &Stint,
    ) -> Result<(), WriteFault>
        requires core { core < course.now.cores }
        requires used { stint.now.used ≤ length course.now.ticks }
        ensures names { self.new.names ≡ self.old.names }
        ensures bytes { PutsBehind (K.state sink.old) (K.state sink.new) self.old.gathered self.new.gathered
            (stint_line self.old.names course.now core stint.now) result }
    {
        let found = first_owner(course, core, stint, self.places[core.index()]);
        let at = make_room(sink, &self.block, self.count)?;
        let tail = self.tails[tail_place(&stint.ran)];
        self.count = put_parts(&mut self.block, at, core, stint, &found.owner, &tail);
        self.places[core.index()] = found.place;
        Ok(())
    }

    /// Puts a line of three numbers, each after its text, after the gathered ones, of which a prefix may
    /// be written.
    ///
    /// A fault leaves a prefix of the lines in the sink. Nothing is settled.
    pub fn put_numbers<K: Sink>(
        &mut self,
        sink: &mut K,
        first: &Numbered<'_>,
        second: &Numbered<'_>,
        third: &Numbered<'_>,
    ) -> Result<(), WriteFault>
        ensures names { self.new.names ≡ self.old.names }
        ensures bytes { PutsBehind (K.state sink.old) (K.state sink.new) self.old.gathered self.new.gathered
            (numbers_line first.now second.now third.now) result }
    {
        let at = make_room(sink, &self.block, self.count)?;
        self.count = put_three(&mut self.block, at, first, second, third);
        Ok(())
    }

    /// Writes the gathered lines.
    ///
    /// A fault leaves a prefix of the lines in the sink. Nothing is settled.
    pub fn write<K: Sink>(&self, sink: &mut K) -> Result<(), WriteFault>
        ensures { Writes (K.state sink.old) (K.state sink.new) self.now.gathered result }
    {
        write_all(sink, &self.block[..self.count])
    }
}
