//! The request that the values of a route's fields make.
ghost use Rattle.std.specs.Prelude.{◌≡◌, true, false};
ghost use Rattle.api_json.specs.Fields.{fields_of};
ghost use Rattle.api_json.specs.Requests.{begins_with, first_digest, first_flag, first_mode, first_moment, first_text, fit, request_of, rest_of};
ghost use Rattle.api_types.specs.declared.route.Route.TheVariants.{Upload};
ghost use Rattle.api_json.specs.declared.fields.Kind.TheVariants as kind;

use crate::values::Held;
use api_types::{Request, Route};
use fh_model::{Bytes32, Commit, Mode, Text};
use std::collections::VecDeque;

/// Takes the first value, which is a text.
fn take_text(values: &mut VecDeque<Held>) -> Text
    requires { begins_with kind.Text values.old.items ≡ true }
    ensures value { result ≡ first_text values.old.items }
    ensures rest { values.new.items ≡ rest_of values.old.items }
{
    match values.pop_front() {
        Some(Held::Text(text)) => text,
        _ => unreachable!(),
    }
}

/// Takes the first value, which is a truth value.
fn take_flag(values: &mut VecDeque<Held>) -> bool
    requires { begins_with (kind.Flag false) values.old.items ≡ true }
    ensures value { result ≡ first_flag values.old.items }
    ensures rest { values.new.items ≡ rest_of values.old.items }
{
    match values.pop_front() {
        Some(Held::Flag(flag)) => flag,
        _ => unreachable!(),
    }
}

/// Takes the first value, which is a moment or none.
fn take_moment(values: &mut VecDeque<Held>) -> Option<u64>
    requires { begins_with kind.Moment values.old.items ≡ true }
    ensures value { result ≡ first_moment values.old.items }
    ensures rest { values.new.items ≡ rest_of values.old.items }
{
    match values.pop_front() {
        Some(Held::Moment(moment)) => moment,
        _ => unreachable!(),
    }
}

/// Takes the first value, which is a digest or none.
fn take_digest(values: &mut VecDeque<Held>) -> Option<Bytes32>
    requires { begins_with kind.Digest values.old.items ≡ true }
    ensures value { result ≡ first_digest values.old.items }
    ensures rest { values.new.items ≡ rest_of values.old.items }
{
    match values.pop_front() {
        Some(Held::Digest(digest)) => digest,
        _ => unreachable!(),
    }
}

/// Takes the first value, which is a mode.
fn take_mode(values: &mut VecDeque<Held>) -> Mode
    requires { begins_with kind.Mode values.old.items ≡ true }
    ensures value { result ≡ first_mode values.old.items }
    ensures rest { values.new.items ≡ rest_of values.old.items }
{
    match values.pop_front() {
        Some(Held::Mode(mode)) => mode,
        _ => unreachable!(),
    }
}

/// The request of an upload.
#[tactic(auto, using(crate::proofs::FieldKinds::first_fits, crate::proofs::FieldKinds::rest_fits))]
fn upload_of(mut values: VecDeque<Held>) -> Request
    requires { fit (fields_of Upload) values.items ≡ true }
    ensures { result ≡ request_of Upload values.items }
{
    let path = take_text(&mut values);
    let mode = take_mode(&mut values);
    let rename = take_flag(&mut values);
    let client = take_moment(&mut values);
    let strict = take_flag(&mut values);
    let content_hash = take_digest(&mut values);
    let commit = Commit {
        path,
        mode,
        rename,
        strict,
        client,
    };
    Request::Upload {
        commit,
        content_hash,
    }
}

/// The request of a route, from the values of its fields in their order.
#[tactic(auto, using(crate::proofs::FieldKinds::first_fits, crate::proofs::FieldKinds::rest_fits))]
pub(crate) fn request_of(route: Route, mut values: VecDeque<Held>) -> Request
    requires { fit (fields_of route) values.items ≡ true }
    ensures { result ≡ request_of route values.items }
{
    match route {
        Route::CreateFolder => {
            let path = take_text(&mut values);
            let autorename = take_flag(&mut values);
            Request::CreateFolder { path, autorename }
        }
        Route::GetMetadata => {
            let path = take_text(&mut values);
            Request::GetMetadata { path }
        }
        Route::Upload => upload_of(values),
        Route::Download => {
            let path = take_text(&mut values);
            Request::Download { path }
        }
    }
}
