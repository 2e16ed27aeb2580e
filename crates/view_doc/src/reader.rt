ghost use Rattle.std.specs.Prelude.{◌≡◌, [], IfOk, IsTrue, None, false};
ghost use Rattle.tab_core.specs.Name.{IsName};
ghost use Rattle.tab_words.specs.Words.{words_of};
ghost use Rattle.tab_words.specs.Texts.{Line};
ghost use Rattle.view_doc.specs.Grammar.{front_behind, may_end, start};
ghost use Rattle.view_doc.specs.Inside.Reading.{CantBePut, HasNames, IsLineTaken, IsPut, IsReadView, IsStatementTaken, IsWrongLine};
ghost use Rattle.view_doc.specs.Inside.Statements.{held_by, told_by};
ghost use Rattle.view_doc.specs.Lines.{IsGoodHolder, IsGoodOwner, entry, segment, stint, task};

use crate::line::statement_of;
use crate::name_table::NameTable;
use crate::place::{Place, may_end, place_behind, row_at, row_behind};
use crate::plain_line::plain_line;
use crate::statement::{Holder, Statement};
use crate::uses::{holder_of, owner_of, plain_owner};
use crate::view::{Entry, Stretch, Task, Use, View};
use std::alloc::{AllocError, Global};
use std::marker::Model;
use tab_core::{CoreNo, MAX_CORES, NoMemory};

// What was read so far, and where the text is.
#[derive(Drop)]
pub(crate) struct Reader<'a> {
    place: Place,
    table: NameTable<'a>,
    ends: Vec<u32>,
    cores: u32,
    tasks: Vec<Task>,
    slots: Vec<Stretch>,
    entries: Vec<Entry>,
    stints: Vec<Stretch>,
}

impl<'a> Model for Reader<'a> {
    ghost use Rattle.std.specs.Prelude.{◌≡◌, length};
    ghost use Rattle.tab_core.specs.declared.TheConstants.{MAX_CORES};
    ghost use Rattle.view_doc.specs.Inside.Reading.{Reading};

    ghost Value = { Reading };

    ghost view = { λ reader. record {
      front = record { place = reader.place; names = reader.table; ends = reader.ends.items };
      cores = reader.cores;
      tasks = reader.tasks.items;
      slots = reader.slots.items;
      entries = reader.entries.items;
      stints = reader.stints.items;
    } };

    ghost invariant = { λ reader. length reader.ends.items ≡ MAX_CORES };
}

impl<'a> Reader<'a> {
    // Before the first line.
    pub(crate) fn begin(alloc: Global) -> Result<Reader<'a>, NoMemory>
        ensures { IfOk result (λ reader. reader ≡ (record {
          front = start;
          cores = 0;
          tasks = [];
          slots = [];
          entries = [];
          stints = [];
        })) }
    {
        let ends = vec![in alloc; 0u32; MAX_CORES as usize]?;
        Ok(Reader {
            place: Place::Start,
            table: NameTable::empty(alloc),
            ends,
            cores: 0,
            tasks: Vec::new(alloc),
            slots: Vec::new(alloc),
            entries: Vec::new(alloc),
            stints: Vec::new(alloc),
        })
    }

    // Whether the text may end here.
    pub(crate) fn may_end(&self) -> bool
        ensures { result ≡ may_end self.now.front.place }
    {
        may_end(&self.place)
    }

    // What was read, as a view.
    pub(crate) fn into_view(self) -> View
        ensures { IsReadView self.entry result }
    {
        View {
            cores: self.cores,
            is_run: !matches!(self.place, Place::Planned),
            names: self.table.into_names(),
            tasks: self.tasks,
            slots: self.slots,
            entries: self.entries,
            stints: self.stints,
        }
    }

    // Takes a line, if it says something that may be there.
    pub(crate) fn take_line(&mut self, alloc: Global, line: &'a [u8]) -> Result<bool, NoMemory>
        ensures taken { IfOk result (λ taken. IsTrue taken → IsLineTaken (words_of line.now) self.old self.new) }
        ensures refused { IfOk result (λ taken. taken ≡ false → IsWrongLine self.old.front (words_of line.now)) }
    {
        if self.take_plain(line)? {
            return Ok(true);
        }
        let Some(statement) = statement_of(line) else {
            return Ok(false);
        };
        self.take(alloc, &statement)
    }

    // Takes a line of a row that is read at once: a number, one space and `-` or a name that a hint names. False
    // where it isn't such a line, or may not are there.
    fn take_plain(&mut self, line: &[u8]) -> Result<bool, NoMemory>
        ensures taken { IfOk result (λ taken. IsTrue taken → IsLineTaken (words_of line.now) self.old self.new) }
        ensures other { IfOk result (λ taken. taken ≡ false → self.new ≡ self.old) }
    {
        let Some((core, from)) = row_at(&self.place) else {
            return Ok(false);
        };
        let Some((end, word)) = plain_line(line) else {
            return Ok(false);
        };
        let Some(place) = row_behind(&self.place, end) else {
            return Ok(false);
        };
        let Some(by) = plain_owner(&self.table, word) else {
            return Ok(false);
        };
        if self.slots.push(slot_of(core, from, end, by)).is_err() {
            return Err(AllocError);
        }
        self.place = place;
        Ok(true)
    }

    // Takes what a line says, if it may be there.
    fn take(&mut self, alloc: Global, statement: &Statement<'a>) -> Result<bool, NoMemory>
        requires { (words : Line) → HasNames (told_by words statement.now) }
        ensures taken { IfOk result (λ taken. IsTrue taken
            → (words : Line) → IsStatementTaken (told_by words statement.now) self.old self.new) }
        ensures refused { IfOk result (λ taken. taken ≡ false
            → (words : Line) → front_behind self.old.front (told_by words statement.now) ≡ None) }
    {
        let Some(place) = place_behind(&self.place, statement) else {
            return Ok(false);
        };
        if !self.put(alloc, statement)? {
            return Ok(false);
        }
        self.place = place;
        Ok(true)
    }

    // Puts what a line says to the rest, at the same place.
    fn put(&mut self, alloc: Global, statement: &Statement<'a>) -> Result<bool, NoMemory>
        requires { (words : Line) → HasNames (told_by words statement.now) }
        ensures put { IfOk result (λ put. IsTrue put
            → (words : Line) → IsPut (told_by words statement.now) self.old self.new) }
        ensures refused { IfOk result (λ put. put ≡ false
            → (words : Line) → CantBePut (told_by words statement.now) self.old) }
    {
        match *statement {
            Statement::Head { cores, .. } => {
                self.cores = cores;
                Ok(true)
            }
            Statement::Task {
                name,
                period,
                cost,
                home,
            } => self.put_task(alloc, name, Task { period, cost, home }),
            Statement::Segment { end, holder } => self.put_segment(end, &holder),
            Statement::Entry { core, round, count } => self.put_entry(Entry { core, round, count }),
            Statement::Stint {
                core,
                from,
                end,
                used,
                seen,
                holder,
            } => self.put_stint(alloc, core, from, end, used, seen, &holder),
            _ => Ok(true),
        }
    }

    fn put_task(&mut self, alloc: Global, name: &'a [u8], one: Task) -> Result<bool, NoMemory>
        requires { IsName name.now }
        ensures put { IfOk result (λ put. IsTrue put
            → IsPut (task name.now one.period one.cost one.home) self.old self.new) }
        ensures refused { IfOk result (λ put. put ≡ false
            → CantBePut (task name.now one.period one.cost one.home) self.old) }
    {
        if self.table.find(name).is_some() {
            return Ok(false);
        }
        let Some(_) = self.table.put(alloc, name)? else {
            return Ok(false);
        };
        if self.tasks.push(one).is_err() {
            return Err(AllocError);
        }
        Ok(true)
    }

    fn put_entry(&mut self, one: Entry) -> Result<bool, NoMemory>
        ensures put { IfOk result (λ put. IsTrue put
            × IsPut (entry one.core one.round one.count) self.old self.new) }
    {
        if self.entries.push(one).is_err() {
            return Err(AllocError);
        }
        Ok(true)
    }

    fn put_segment(&mut self, end: u32, holder: &Holder<'a>) -> Result<bool, NoMemory>
        requires { IsGoodOwner (held_by holder.now) }
        ensures put { IfOk result (λ put. IsTrue put
            → IsPut (segment end (held_by holder.now)) self.old self.new) }
        ensures refused { IfOk result (λ put. put ≡ false
            → CantBePut (segment end (held_by holder.now)) self.old) }
    {
        let Some(by) = owner_of(&self.table, holder) else {
            return Ok(false);
        };
        let Some((core, from)) = row_at(&self.place) else {
            return Ok(true);
        };
        if self.slots.push(slot_of(core, from, end, by)).is_err() {
            return Err(AllocError);
        }
        Ok(true)
    }

    fn put_stint(
        &mut self,
        alloc: Global,
        core: CoreNo,
        from: u32,
        end: u32,
        used: u32,
        seen: u32,
        holder: &Holder<'a>,
    ) -> Result<bool, NoMemory>
        requires { IsGoodHolder (held_by holder.now) }
        ensures put { IfOk result (λ put. IsTrue put
            → IsPut (stint core from end used seen (held_by holder.now)) self.old self.new) }
        ensures refused { IfOk result (λ put. put ≡ false
            → CantBePut (stint core from end used seen (held_by holder.now)) self.old) }
    {
        if self.ends[core.index()] > from {
            return Ok(false);
        }
        let Some(by) = holder_of(&mut self.table, alloc, holder)? else {
            return Ok(false);
        };
        self.ends[core.index()] = end;
        let stint = Stretch {
            core,
            from,
            end,
            used,
            seen,
            by,
        };
        if self.stints.push(stint).is_err() {
            return Err(AllocError);
        }
        Ok(true)
    }
}

// A segment of a plan as a stretch, which counts nothing.
fn slot_of(core: CoreNo, from: u32, end: u32, by: Use) -> Stretch
    ensures { result ≡ (record { core = core; from = from; end = end; used = 0; seen = 0; by = by }) }
{
    Stretch {
        core,
        from,
        end,
        used: 0,
        seen: 0,
        by,
    }
}
