//! The keys of names, compared where the names stand.
ghost use Rattle.std.specs.Prelude.{◌≡◌, ◌||◌};
ghost use Rattle.fh_model.specs.Keys.{key_of, has_key};
ghost use Rattle.fh_model.specs.KeyOrder.{key_cmp, is_under};

use fh_model::Name;
use std::cmp::Ordering;

/// Whether the names have the key of the other names.
pub(crate) fn has_key(names: &[Name], key: &[Name]) -> bool
    ensures { result ≡ has_key names.now (key_of key.now) }
{
    match names {
        [] => match key {
            [] => true,
            [_, ..] => false,
        },
        [name, names @ ..] => match key {
            [] => false,
            [first, key @ ..] => {
                name.folded.as_bytes() == first.folded.as_bytes() && has_key(names, key)
            }
        },
    }
}

/// The order of the keys of both.
pub(crate) fn compare(names: &[Name], others: &[Name]) -> Ordering
    ensures { result ≡ key_cmp (key_of names.now) (key_of others.now) }
{
    match names {
        [] => match others {
            [] => Ordering::Equal,
            [_, ..] => Ordering::Less,
        },
        [name, names @ ..] => match others {
            [] => Ordering::Greater,
            [other, others @ ..] => {
                let order = name.folded.as_bytes().cmp(other.folded.as_bytes());
                order.then(compare(names, others))
            }
        },
    }
}

/// Whether the key of the base is a proper prefix of the key of the names.
pub(crate) fn is_under(names: &[Name], base: &[Name]) -> bool
    ensures { result ≡ is_under (key_of names.now) (key_of base.now) }
{
    match names {
        [] => false,
        [name, names @ ..] => match base {
            [] => true,
            [first, base @ ..] => {
                name.folded.as_bytes() == first.folded.as_bytes() && is_under(names, base)
            }
        },
    }
}

/// Whether the key of the names is that of the base or under it.
pub(crate) fn is_at_or_under(names: &[Name], base: &[Name]) -> bool
    ensures { result ≡ (has_key names.now (key_of base.now) || is_under (key_of names.now) (key_of base.now)) }
{
    has_key(names, base) || is_under(names, base)
}
