//! Questions about the blocks, and about the guest's memory and its marks, as `mig_rows` asks them.

use crate::case::Case;
use crate::show::{put_bytes, put_memory, put_number, put_place, put_table, put_table_fault};
use crate::trouble::{Done, Trouble};
use crate::words::{Words, id_of};
use mig_mem::{Place, first_difference, is_page_size};

/// Writes the answer to such a question. Returns false if the question is another one.
pub fn ask_memory(
    out: &mut String,
    case: &mut Case,
    name: &str,
    words: Words,
) -> Result<bool, Trouble> {
    let answered = match name {
        "is_page_size" => page_size(out, words),
        "is_before" => is_before(out, words),
        "table" => table(out, case),
        "find" => find(out, case, words),
        "dirty" => dirty(out, case),
        "memory" => put_memory(out, &case.guest()?.image),
        _ => return ask_place(out, case, name, words),
    };
    answered?;
    Ok(true)
}

// The questions that name a place.
fn ask_place(
    out: &mut String,
    case: &mut Case,
    name: &str,
    mut words: Words,
) -> Result<bool, Trouble> {
    match name {
        "holds" | "mark" | "unmark" | "has" | "first_from" | "page_of" => {}
        _ => return Ok(false),
    }
    let guest = case.guest()?;
    let place = place_of(&mut words)?;
    match name {
        "holds" => put_answer(out, guest.image.table().holds(place))?,
        "has" => put_answer(out, guest.dirty.has(place))?,
        "first_from" => put_place(out, guest.dirty.first_from(place))?,
        "mark" => out.push_str(match guest.mark(place)? {
            Some(true) => "new",
            Some(false) => "there",
            None => "outside",
        })?,
        "unmark" => match guest.unmark(place) {
            Some(left) => put_number(out, left)?,
            None => out.push_str("outside")?,
        },
        _ => match guest.image.page(place) {
            Some(bytes) => put_bytes(out, bytes)?,
            None => out.push_str("none")?,
        },
    }
    Ok(true)
}

fn put_answer(out: &mut String, is_so: bool) -> Done {
    out.push_str(if is_so { "true" } else { "false" })?;
    Ok(())
}

fn table(out: &mut String, case: &Case) -> Done {
    match case.table()? {
        Ok(table) => put_table(out, &table),
        Err(fault) => put_table_fault(out, fault),
    }
}

fn find(out: &mut String, case: &mut Case, words: Words) -> Done {
    let id = id_of(case.alloc, words.rest())?;
    match case.guest()?.image.table().find(&id) {
        Some(block) => put_number(out, block as u64),
        None => Ok(out.push_str("none")?),
    }
}

fn place_of(words: &mut Words) -> Result<Place, Trouble> {
    Ok(Place {
        block: words.size()?,
        page: words.number()?,
    })
}

fn page_size(out: &mut String, mut words: Words) -> Done {
    put_answer(out, is_page_size(words.number()?))
}

// Asks by the method, and by the operator.
fn is_before(out: &mut String, mut words: Words) -> Done {
    let one = place_of(&mut words)?;
    let other = place_of(&mut words)?;
    put_answer(out, one.is_before(other))?;
    out.push_str(" ")?;
    put_answer(out, one < other)
}

fn dirty(out: &mut String, case: &mut Case) -> Done {
    let dirty = &case.guest()?.dirty;
    put_number(out, dirty.count())?;
    for place in &dirty.pages()? {
        out.push_str(" ")?;
        put_place(out, Some(*place))?;
    }
    Ok(())
}

/// `same`, whether two cases have one table, or `difference`, the first place where their guests'
/// memories differ.
pub fn difference(out: &mut String, case: &mut Case, other: &mut Case, name: &str) -> Done {
    if name == "same" {
        let (Ok(one), Ok(other)) = (case.table()?, other.table()?) else {
            return Err(Trouble::Line);
        };
        return put_answer(out, one.same(&other));
    }
    let one = &case.guest()?.image;
    let other = &other.guest()?.image;
    if !one.table().same(other.table()) {
        return Err(Trouble::Line);
    }
    put_place(out, first_difference(one, other))
}
