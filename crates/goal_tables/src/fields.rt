// Fields with the tables of their terms.
ghost use Rattle.std.specs.Prelude.{◌≡◌, ◌<◌, ℕ, Some, slice_get, length, IfOk, IfSome, IfNone};
ghost use Rattle.goal_form.specs.Goals.{field_in};
ghost use Rattle.goal_tables.specs.Fields.{IsFieldAt, HasField, AreFields, IsPlaced, HasTermAt, Extends};

use goal_form::{Atom, copy_field, field_of, same_field, valid_term};
use rx_joint::Joint;
use rx_term::Term;
use std::alloc::Global;
use text_base::{Field, OutOfMemory};

/// A field, and the tables of its valid texts and of terms that atoms name of it.
#[derive(Drop)]
pub struct FieldTables {
    pub field: Field,
    pub joint: Joint,
}

/// Where the tables of an atom are: the number of its field, and that of its term among those of the field. Where the atom
/// names no term, the second number says nothing.
#[derive(Clone, Copy, Debug, PartialEq, Eq, Drop)]
pub struct Place {
    pub field: usize,
    pub term: u32,
}

/// The number of the field, if it is among the fields.
pub fn find(fields: &[FieldTables], field: &Field) -> Option<usize>
    ensures some { IfSome result (λ i. IsFieldAt fields.now i field.now) }
    ensures none { IfNone result (HasField fields.now field.now → ⊥) }
{
    for (i, entry) in fields.iter().enumerate() {
        if same_field(&entry.field, field) {
            return Some(i);
        }
    }
    None
}

/// Adds a field without terms, if it isn't there yet, and tells its number.
pub fn add_field(
    alloc: Global,
    fields: &mut Vec<FieldTables>,
    field: &Field,
) -> Result<usize, OutOfMemory>
    requires { AreFields fields.old.items }
    ensures fields { AreFields fields.new.items }
    ensures extends { Extends fields.old.items fields.new.items }
    ensures there { IfOk result (λ i. IsFieldAt fields.new.items i field.now) }
{
    if let Some(at) = find(fields, field) {
        return Ok(at);
    }
    let valid = valid_term(alloc, field)?;
    let joint = Joint::new(alloc, &valid)?;
    let field = copy_field(alloc, field)?;
    let at = fields.len();
    fields.push(FieldTables { field, joint })?;
    Ok(at)
}

/// Adds a term to those of a field, and tells its number.
fn add_term(
    alloc: Global,
    fields: &mut Vec<FieldTables>,
    at: usize,
    term: &Term,
) -> Result<u32, OutOfMemory>
    requires fields { AreFields fields.old.items }
    requires within { at < length fields.old.items }
    ensures fields { AreFields fields.new.items }
    ensures extends { Extends fields.old.items fields.new.items }
    ensures there { IfOk result (λ n. HasTermAt fields.new.items at n term.now) }
{
    let joint = &mut fields[at].joint;
    let number = joint.count();
    joint.add(alloc, term)?;
    Ok(number)
}

/// Adds the tables of an atom, and tells where they are.
pub fn add_atom(
    alloc: Global,
    fields: &mut Vec<FieldTables>,
    atom: &Atom,
) -> Result<Place, OutOfMemory>
    requires { AreFields fields.old.items }
    ensures fields { AreFields fields.new.items }
    ensures extends { Extends fields.old.items fields.new.items }
    ensures placed { IfOk result (IsPlaced fields.new.items atom.now) }
{
    let field = add_field(alloc, fields, field_of(atom))?;
    let term = match atom {
        Atom::Present(_) => 0,
        Atom::Within { term, .. } => add_term(alloc, fields, field, term)?,
    };
    Ok(Place { field, term })
}
