//! The parts of a state as rows, and the rows as parts of a state.
ghost use Rattle.std.specs.Prelude.{◌≡◌, ◌++◌, ◌∷◌, [], true, map, IfOk, OnOk};
ghost use Rattle.std.specs.List.{list_all};
ghost use Rattle.fh_model.specs.Rows.{user_row, namespace_row, users_in, namespaces_in};
ghost use Rattle.name_core.specs.Machine.{length_fits};

use crate::shared::Shared;
use crate::space::Space;
use fh_model::{Copies, NoMemory, Row, User};
use std::alloc::Global;

/// Puts a row for each user at the end.
pub(crate) fn put_users(rows: &mut Vec<Row>, users: &[Shared<User>]) -> Result<(), NoMemory>
    ensures { OnOk result (rows.new.items ≡ rows.old.items ++ map user_row users.now) }
{
    for user in users {
        rows.push(user_row(user)?)?;
    }
    Ok(())
}

fn user_row(user: &User) -> Result<Row, NoMemory>
    ensures { IfOk result (λ row. row ≡ user_row user.now) }
{
    let User {
        number,
        home,
        token,
    } = user.copy()?;
    Ok(Row::User {
        number,
        home,
        token,
    })
}

/// Puts a row for each namespace at the end.
pub(crate) fn put_namespaces(rows: &mut Vec<Row>, spaces: &[Shared<Space>]) -> Result<(), NoMemory>
    requires { list_all length_fits spaces.now ≡ true }
    ensures { OnOk result (rows.new.items ≡ rows.old.items ++ map namespace_row spaces.now) }
{
    for space in spaces {
        rows.push(space.row()?)?;
    }
    Ok(())
}

/// The users whose rows stand among these.
pub(crate) fn users_in(alloc: Global, rows: &[Row]) -> Result<Vec<Shared<User>>, NoMemory>
    ensures { IfOk result (λ users. users.items ≡ users_in rows.now) }
{
    let mut users = Vec::new(alloc);
    for row in rows {
        put_user(alloc, &mut users, row)?;
    }
    Ok(users)
}

fn put_user(alloc: Global, users: &mut Vec<Shared<User>>, row: &Row) -> Result<(), NoMemory>
    ensures { OnOk result (users.new.items ≡ users.old.items ++ users_in (row.now ∷ [])) }
{
    if let Row::User {
        number,
        home,
        token,
    } = row
    {
        let token = match token {
            None => None,
            Some(text) => Some(text.copy()?),
        };
        let user = User {
            number: *number,
            home: *home,
            token,
        };
        users.push(Shared::new(alloc, user)?)?;
    }
    Ok(())
}

/// The namespaces whose rows stand among these.
pub(crate) fn spaces_in(alloc: Global, rows: &[Row]) -> Result<Vec<Shared<Space>>, NoMemory>
    ensures rows { IfOk result (λ spaces. spaces.items ≡ namespaces_in rows.now) }
    ensures lengths { IfOk result (λ spaces. list_all length_fits spaces.items ≡ true) }
{
    let mut spaces = Vec::new(alloc);
    for row in rows {
        put_space(alloc, &mut spaces, row)?;
    }
    Ok(spaces)
}

fn put_space(alloc: Global, spaces: &mut Vec<Shared<Space>>, row: &Row) -> Result<(), NoMemory>
    ensures rows { OnOk result (spaces.new.items ≡ spaces.old.items ++ namespaces_in (row.now ∷ [])) }
    ensures lengths { list_all length_fits spaces.old.items ≡ true → list_all length_fits spaces.new.items ≡ true }
{
    if let Row::Namespace {
        number,
        shared,
        floor,
        members,
        ..
    } = row
    {
        let space = Space::new(alloc, *number, *shared, *floor, members.copy()?)?;
        spaces.push(Shared::new(alloc, space)?)?;
    }
    Ok(())
}
