//! The order of refusals, as far as the head tells.
ghost use Rattle.std.specs.Prelude.{◌≡◌, option_and_then, option_map};
ghost use Rattle.fh_model.specs.History.{state_of};
ghost use Rattle.fh_model.specs.State.{State, token_user};
ghost use Rattle.session_rules.specs.Decisions.{called};
ghost use Rattle.session_rules.specs.Judged.{IsCalled};

use api_types::Route;
use fh_model::Text;
use http_in::Head;
use name_core::Image;

/// The user whose token the admin word is.
const ADMIN: u64 = 1;

/// Why a request is refused by its head.
#[derive(Clone, Copy, Debug, PartialEq, Eq)]
pub enum HeadFault {
    /// Its target is no route.
    UnknownRoute,

    /// Its method isn't POST.
    NotPost,

    /// Its token is missing, or nobody's.
    NoToken,
}

/// Who calls which route, as far as that is known without the tokens of a state.
#[derive(Clone, Copy, Debug, PartialEq, Eq)]
pub enum Caller {
    /// The request is refused.
    Refused(HeadFault),

    /// The user with this number.
    User(Route, u64),

    /// The user whose token it is, if there is one.
    Bearer(Route),
}

/// Decides by the head alone: the route, the method, and the token, of which the admin word is looked at first.
pub fn call_of(admin: &Text, head: &Head) -> Caller
    ensures { (s : State) → IsCalled result s (option_map (λ token. token.items) head.now.token) (called admin.now s head.now.method.items head.now.target.items (option_map (λ token. token.items) head.now.token)) }
{
    let Some(route) = Route::of(&head.target) else {
        return Caller::Refused(HeadFault::UnknownRoute);
    };
    if head.method.as_slice() != b"POST".as_slice() {
        return Caller::Refused(HeadFault::NotPost);
    }
    match &head.token {
        None => Caller::Refused(HeadFault::NoToken),
        Some(token) => {
            if admin.as_bytes() == token.as_slice() {
                Caller::User(route, ADMIN)
            } else {
                Caller::Bearer(route)
            }
        }
    }
}

/// The user whose token the head carries, in the state of an image. Takes no memory.
pub fn user_of(image: &Image, head: &Head) -> Option<u64>
    ensures { result ≡ option_and_then (token_user (state_of image.now)) (option_map (λ token. token.items) head.now.token) }
{
    match &head.token {
        None => None,
        Some(token) => image.token_user(token),
    }
}
