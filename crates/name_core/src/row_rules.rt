//! The rules that the rows of a checkpoint keep together.
ghost use Rattle.std.specs.Prelude.{◌≡◌, ◌==◌, not, option_copied};
ghost use Rattle.std.specs.List.{list_all, list_any};
ghost use Rattle.fh_model.specs.RowRules.{rank_of, rises, comes_after, counters_in, user_was_given, namespace_was_given, is_user_row, is_namespace_row, names_user, names_namespace, all_differ, has_all, keeps_rules, first_bad};

use fh_model::{Next, Row};

fn rank_of(row: &Row) -> u8
    ensures { result ≡ rank_of row.now }
{
    match row {
        Row::Counters { .. } => 0,
        Row::User { .. } => 1,
        Row::Namespace { .. } => 2,
    }
}

/// Whether the second row may follow the first, which is of its kind.
fn rises(row: &Row, next: &Row) -> bool
    ensures { result ≡ rises row.now next.now }
{
    match row {
        Row::Counters { .. } => false,
        Row::User { number: before, .. } => match next {
            Row::User { number, .. } => before < number,
            _ => false,
        },
        Row::Namespace { number: before, .. } => match next {
            Row::Namespace { number, .. } => before < number,
            _ => false,
        },
    }
}

fn comes_after(before: Option<&Row>, row: &Row) -> bool
    ensures { result ≡ comes_after (option_copied before.entry) row.now }
{
    match before {
        None => true,
        Some(before) => rank_of(before) < rank_of(row) || rises(before, row),
    }
}

/// The next numbers and the last moment of the first row of counters.
pub(crate) fn counters_in(rows: &[Row]) -> Option<(Next, u64)>
    ensures { result ≡ counters_in rows.now }
{
    for row in rows {
        if let Row::Counters {
            rev,
            id,
            session,
            user,
            namespace,
            moment,
        } = row
        {
            let next = Next {
                rev: *rev,
                id: *id,
                session: *session,
                user: *user,
                namespace: *namespace,
            };
            return Some((next, *moment));
        }
    }
    None
}

fn user_was_given(counters: Option<(Next, u64)>, number: u64) -> bool
    ensures { result ≡ user_was_given counters number }
{
    match counters {
        None => true,
        Some((next, _)) => number < next.user,
    }
}

fn namespace_was_given(counters: Option<(Next, u64)>, number: u64) -> bool
    ensures { result ≡ namespace_was_given counters number }
{
    match counters {
        None => true,
        Some((next, _)) => number < next.namespace,
    }
}

fn is_user_row(row: &Row, number: u64) -> bool
    ensures { result ≡ is_user_row number row.now }
{
    match row {
        Row::User { number: found, .. } => *found == number,
        _ => false,
    }
}

fn is_namespace_row(row: &Row, number: u64) -> bool
    ensures { result ≡ is_namespace_row number row.now }
{
    match row {
        Row::Namespace { number: found, .. } => *found == number,
        _ => false,
    }
}

fn has_user(rows: &[Row], number: u64) -> bool
    ensures { result ≡ list_any (is_user_row number) rows.now }
{
    rows.iter().any(|row| is_user_row(row, number))
}

fn has_namespace(rows: &[Row], number: u64) -> bool
    ensures { result ≡ list_any (is_namespace_row number) rows.now }
{
    rows.iter().any(|row| is_namespace_row(row, number))
}

fn names_user(rows: &[Row], number: u64) -> bool
    ensures { result ≡ names_user rows.now number }
{
    has_user(rows, number) && user_was_given(counters_in(rows), number)
}

fn names_users(rows: &[Row], numbers: &[u64]) -> bool
    ensures { result ≡ list_all (names_user rows.now) numbers.now }
{
    numbers.iter().all(|number| names_user(rows, *number))
}

fn names_namespace(rows: &[Row], number: u64) -> bool
    ensures { result ≡ names_namespace rows.now number }
{
    has_namespace(rows, number) && namespace_was_given(counters_in(rows), number)
}

/// Whether the number isn't one of the others.
fn differs(number: u64, others: &[u64]) -> bool
    ensures { result ≡ list_all (λ other. not (number == other)) others.now }
{
    others.iter().all(|other| number != *other)
}

/// Whether no number stands twice.
fn all_differ(numbers: &[u64]) -> bool
    ensures { result ≡ all_differ numbers.now }
{
    let mut rest = numbers;
    while let Some((number, others)) = rest.split_first() {
        if !differs(*number, others) {
            return false;
        }
        rest = others;
    }
    true
}

/// Whether all that the row names is there.
fn has_all(rows: &[Row], row: &Row) -> bool
    ensures { result ≡ has_all rows.now row.now }
{
    match row {
        Row::Counters { .. } => true,
        Row::User { number, home, .. } => {
            user_was_given(counters_in(rows), *number) && names_namespace(rows, *home)
        }
        Row::Namespace {
            number,
            floor,
            length,
            members,
            ..
        } => {
            let members = members.as_slice();
            namespace_was_given(counters_in(rows), *number)
                && (floor == length && (names_users(rows, members) && all_differ(members)))
        }
    }
}

fn keeps_rules(rows: &[Row], before: Option<&Row>, row: &Row) -> bool
    ensures { result ≡ keeps_rules rows.now (option_copied before.entry) row.now }
{
    comes_after(before, row) && has_all(rows, row)
}

/// The place of the first row that breaks a rule.
pub(crate) fn first_bad(rows: &[Row]) -> Option<usize>
    ensures { result ≡ first_bad rows.now }
{
    let mut place = 0;
    let mut before = None;
    for row in rows {
        if !keeps_rules(rows, before, row) {
            return Some(place);
        }
        before = Some(row);
        place += 1;
    }
    None
}
