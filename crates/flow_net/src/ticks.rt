ghost use Rattle.std.specs.Prelude.{ℕ, ◌≡◌, ◌+◌, ◌-◌, ◌<◌, length, slice_index, slice_set};
ghost use Rattle.flow_net.specs.Rows.{IsPlace, row_at, ticks_at, with_ticks};

use std::marker::Model;

/// Numbers of ticks, one for each vCPU or for each job, by number. Contracts see the list.
#[derive(Drop)]
pub struct Ticks {
    items: Vec<u32>,
}

impl Model for Ticks {
    ghost use Rattle.std.specs.Prelude.{ℕ, List};

    ghost Value = { List ℕ };

    ghost view = { λ ticks. ticks.items.items };
}

impl Ticks {
    /// The list of these ticks.
    pub fn of(items: Vec<u32>) -> Ticks
        ensures { result ≡ items.items }
    {
        Ticks { items }
    }

    /// The ticks, by number.
    pub fn items(&self) -> &[u32]
        ensures { result.now ≡ self.now }
    {
        &self.items
    }

    // One more at this place.
    fn raise(&mut self, place: usize)
        requires within { place < length self.old }
        requires room { slice_index self.old place < u32.MAX }
        ensures { self.new ≡ slice_set self.old place (slice_index self.old place + 1) }
    {
        self.items[place] += 1;
    }

    // 0 at each place.
    fn clear(&mut self)
        ensures same_len { length self.new ≡ length self.old }
        ensures none { (place : ℕ) → slice_index self.new place ≡ 0 }
    {
        clear_all(&mut self.items);
    }

    // One less at this place.
    fn lower(&mut self, place: usize)
        requires within { place < length self.old }
        requires some { 0 < slice_index self.old place }
        ensures { self.new ≡ slice_set self.old place (slice_index self.old place - 1) }
    {
        self.items[place] -= 1;
    }
}

// 0 at each place.
fn clear_all(items: &mut Vec<u32>)
    ensures same_len { length items.new.items ≡ length items.old.items }
    ensures none { (place : ℕ) → slice_index items.new.items place ≡ 0 }
{
    for place in 0..items.len() {
        items[place] = 0;
    }
}

// How many numbers a row has.
pub(crate) fn row_len(rows: &Vec<Ticks>, row: usize) -> usize
    requires { row < length rows.now.items }
    ensures { result ≡ length (row_at rows.now.items row) }
{
    rows[row].items().len()
}

// The numbers of a row.
pub(crate) fn row_of(rows: &Vec<Ticks>, row: usize) -> &[u32]
    requires { row < length rows.now.items }
    ensures { result.now ≡ row_at rows.now.items row }
{
    rows[row].items()
}

// The number at a place of a row.
#[tactic(auto, unfolding(crate::specs::Rows::ticks_at))]
pub(crate) fn read(rows: &Vec<Ticks>, row: usize, place: usize) -> u32
    requires { IsPlace rows.now.items row place }
    ensures { result ≡ ticks_at rows.now.items row place }
{
    rows[row].items()[place]
}

// One more at a place of a row.
#[tactic(auto, unfolding(crate::specs::Rows::ticks_at))]
pub(crate) fn raise_at(rows: &mut Vec<Ticks>, row: usize, place: usize)
    requires at { IsPlace rows.old.items row place }
    requires room { ticks_at rows.old.items row place < u32.MAX }
    ensures { rows.new.items ≡ with_ticks rows.old.items row place (ticks_at rows.old.items row place + 1) }
{
    let ticks = &mut rows[row];
    ticks.raise(place);
}

// One less at a place of a row.
#[tactic(auto, unfolding(crate::specs::Rows::ticks_at))]
pub(crate) fn lower_at(rows: &mut Vec<Ticks>, row: usize, place: usize)
    requires at { IsPlace rows.old.items row place }
    requires some { 0 < ticks_at rows.old.items row place }
    ensures { rows.new.items ≡ with_ticks rows.old.items row place (ticks_at rows.old.items row place - 1) }
{
    let ticks = &mut rows[row];
    ticks.lower(place);
}

// 0 at each place of each row.
pub(crate) fn clear_rows(rows: &mut Vec<Ticks>)
    ensures same_len { length rows.new.items ≡ length rows.old.items }
    ensures widths { (i : ℕ) → length (row_at rows.new.items i) ≡ length (row_at rows.old.items i) }
    ensures none { (i place : ℕ) → ticks_at rows.new.items i place ≡ 0 }
{
    for i in 0..rows.len() {
        let row = &mut rows[i];
        row.clear();
    }
}
