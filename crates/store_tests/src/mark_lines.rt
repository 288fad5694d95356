//! Marks as lines of text, which tests compare.

use catalogue_store::StoreFault;
use visibility::Mark;

/// A line of marks: of each unit the number, whether it names containers, whether it is a draft, and its closure.
pub(crate) fn show_marks(text: &mut String, marks: &[Mark]) -> Result<(), StoreFault> {
    for mark in marks {
        let (id, boxed, draft) = (mark.id.get(), mark.boxed, mark.draft);
        let until = mark.until.unwrap_or(0);
        write!(text, " {id} {boxed} {draft} {until}")?;
    }
    text.push_str("\n")?;
    Ok(())
}

/// The same for marks in walk order, with their numbers counted from the first one's, which depends on the version.
pub(crate) fn show_walk(text: &mut String, marks: &[Mark]) -> Result<(), StoreFault> {
    show_marks(text, marks)?;
    show_numbers(text, marks)
}

/// The numbers of marks in walk order, counted from the first one's.
fn show_numbers(text: &mut String, marks: &[Mark]) -> Result<(), StoreFault> {
    let start = match marks.first() {
        Some(first) => first.lft,
        None => 0,
    };
    for mark in marks {
        let id = mark.id.get();
        let (from, to) = (
            mark.lft.saturating_sub(start),
            mark.rgt.saturating_sub(start),
        );
        write!(text, " {id} {from} {to}")?;
    }
    text.push_str("\n")?;
    Ok(())
}

/// The same without whether they name containers.
pub(crate) fn show_statuses(text: &mut String, marks: &[Mark]) -> Result<(), StoreFault> {
    for mark in marks {
        let (id, draft) = (mark.id.get(), mark.draft);
        let until = mark.until.unwrap_or(0);
        write!(text, " {id} {draft} {until}")?;
    }
    text.push_str("\n")?;
    Ok(())
}

/// The marks of a unit that a container is attached to, without whether it names containers, and of those below it.
pub(crate) fn show_branch(text: &mut String, marks: &[Mark]) -> Result<(), StoreFault> {
    if let Some((own, below)) = marks.split_first() {
        let (id, draft) = (own.id.get(), own.draft);
        write!(text, " {id} {draft}:")?;
        show_marks(text, below)?;
    }
    show_numbers(text, marks)
}
