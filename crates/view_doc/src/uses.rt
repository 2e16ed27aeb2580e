ghost use Rattle.std.specs.Prelude.{◌≡◌, ℕ, IfOk, IfSome, MatchOption, None, Some};
ghost use Rattle.view_doc.specs.Grammar.{names_behind};
ghost use Rattle.view_doc.specs.Inside.Reading.{IsPlainOwner, names_with};
ghost use Rattle.view_doc.specs.Inside.Statements.{held_by};
ghost use Rattle.view_doc.specs.Lines.{IsGoodHolder, IsGoodOwner, segment};
ghost use Rattle.view_doc.specs.Views.{holder_named};

use crate::name_table::NameTable;
use crate::statement::Holder;
use crate::view::Use;
use std::alloc::Global;
use tab_core::NoMemory;

// The owner of a segment by its number, if it is known.
pub(crate) fn owner_of(table: &NameTable<'_>, holder: &Holder<'_>) -> Option<Use>
    requires { IsGoodOwner (held_by holder.now) }
    ensures { (end : ℕ) → MatchOption result
        (names_behind table.now (segment end (held_by holder.now)) ≡ None)
        (λ by. (names_behind table.now (segment end (held_by holder.now)) ≡ Some table.now)
        × (holder_named table.now by ≡ held_by holder.now)) }
{
    match *holder {
        Holder::Nobody => Some(Use::Idle),
        Holder::Slot(name) | Holder::Shared(name) => {
            let vcpu = table.find(name)?;
            Some(Use::Slot(vcpu))
        }
    }
}

// Whoever the word of a segment names, if that is nobody or a hint says who it is.
pub(crate) fn plain_owner(table: &NameTable<'_>, word: &[u8]) -> Option<Use>
    ensures { IfSome result (IsPlainOwner table.now word.now) }
{
    if word == b"-".as_slice() {
        return Some(Use::Idle);
    }
    match table.hinted(word) {
        Some(vcpu) => Some(Use::Slot(vcpu)),
        None => None,
    }
}

// The holder of a stint by its number, which is new or known; none where there is no room for it.
pub(crate) fn holder_of<'a>(
    table: &mut NameTable<'a>,
    alloc: Global,
    holder: &Holder<'a>,
) -> Result<Option<Use>, NoMemory>
    requires { IsGoodHolder (held_by holder.now) }
    ensures { IfOk result (λ found. MatchOption found (names_with table.old (held_by holder.now) ≡ None)
        (λ by. (names_with table.old (held_by holder.now) ≡ Some table.new)
        × (holder_named table.new by ≡ held_by holder.now))) }
{
    match *holder {
        Holder::Nobody => Ok(Some(Use::Idle)),
        Holder::Slot(name) => match table.put(alloc, name)? {
            Some(vcpu) => Ok(Some(Use::Slot(vcpu))),
            None => Ok(None),
        },
        Holder::Shared(name) => match table.put(alloc, name)? {
            Some(vcpu) => Ok(Some(Use::Shared(vcpu))),
            None => Ok(None),
        },
    }
}
