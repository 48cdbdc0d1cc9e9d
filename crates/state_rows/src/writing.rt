ghost use Rattle.std.specs.Prelude.{◌≡◌, ◌++◌, OnOk, IfOk};
ghost use Rattle.byte_formats.specs.Spelling.{Spells};
ghost use Rattle.fh_model.specs.declared.rows.Row.TheVariants.{User, Namespace};
ghost use Rattle.state_rows.specs.Rows.{HasSpelling, checkpoint_row, fields, kind_of, namespace_row, next_numbers, user_row};

use crate::kinds::kind_of;
use crate::spelling::has_spelling;
use byte_formats::{Field, put_byte};
use fh_model::{Members, Next, NoMemory, Row, Text};
use std::alloc::Global;

#[tactic(auto, unfolding(crate::specs::Rows::next_numbers))]
fn put_next_numbers(out: &mut Vec<u8>, next: &Next) -> Result<(), NoMemory>
    requires { next_numbers.fits next.now }
    ensures { OnOk result (out.new.items ≡ out.old.items ++ next_numbers.spell next.now) }
{
    next.rev.put(out)?;
    next.id.put(out)?;
    next.session.put(out)?;
    next.user.put(out)?;
    next.namespace.put(out)
}

#[tactic(auto, unfolding(crate::specs::Rows::user_row))]
fn put_user(out: &mut Vec<u8>, number: u64, home: u64, token: &Option<Text>) -> Result<(), NoMemory>
    requires { user_row.fits (User number home token.now) }
    ensures { OnOk result (out.new.items ≡ out.old.items ++ user_row.spell (User number home token.now)) }
{
    number.put(out)?;
    home.put(out)?;
    token.put(out)
}

#[tactic(auto, unfolding(crate::specs::Rows::namespace_row))]
fn put_namespace(
    out: &mut Vec<u8>,
    number: u64,
    shared: bool,
    floor: u64,
    length: u64,
    members: &Members,
) -> Result<(), NoMemory>
    requires { namespace_row.fits (Namespace number shared floor length members.now) }
    ensures { OnOk result (out.new.items ≡ out.old.items ++ namespace_row.spell (Namespace number shared floor length members.now)) }
{
    number.put(out)?;
    shared.put(out)?;
    floor.put(out)?;
    length.put(out)?;
    members.put(out)
}

/// Puts the fields of the row at the end.
#[tactic(auto, unfolding(crate::specs::Rows::counters_row))]
fn put_fields(out: &mut Vec<u8>, what: &Row) -> Result<(), NoMemory>
    requires { (fields (kind_of what.now)).fits what.now }
    ensures { OnOk result (out.new.items ≡ out.old.items ++ (fields (kind_of what.now)).spell what.now) }
{
    match what {
        Row::Counters {
            rev,
            id,
            session,
            user,
            namespace,
            moment,
        } => {
            let next = Next {
                rev: *rev,
                id: *id,
                session: *session,
                user: *user,
                namespace: *namespace,
            };
            put_next_numbers(out, &next)?;
            moment.put(out)
        }
        Row::User {
            number,
            home,
            token,
        } => put_user(out, *number, *home, token),
        Row::Namespace {
            number,
            shared,
            floor,
            length,
            members,
        } => put_namespace(out, *number, *shared, *floor, *length, members),
    }
}

/// The one spelling of the row, which must have one: each text or list in it is shorter than 2^32.
#[tactic(auto, unfolding(crate::specs::Rows::checkpoint_row))]
pub fn encode_row(alloc: Global, row: &Row) -> Result<Vec<u8>, NoMemory>
    requires { HasSpelling row.now }
    ensures { IfOk result (λ bytes. Spells checkpoint_row bytes.items row.now) }
{
    prove!(has_spelling(row));
    let mut out = Vec::new(alloc);
    put_byte(&mut out, kind_of(row))?;
    put_fields(&mut out, row)?;
    Ok(out)
}
