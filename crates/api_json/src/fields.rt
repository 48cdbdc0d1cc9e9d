//! The table of routes and the fields of their arguments.
ghost use Rattle.std.specs.Prelude.{◌≡◌};
ghost use Rattle.api_json.specs.Fields.{fields_of};

use api_types::Route;

/// The name of a field.
#[derive(Clone, Copy, Debug, PartialEq, Eq)]
pub enum FieldName {
    Path,
    Autorename,
    IncludeDeleted,
    Mode,
    ClientModified,
    StrictConflict,
    ContentHash,
}

impl FieldName {
    ghost use Rattle.api_json.specs.Fields.{name_text};

    /// The key of the field.
    pub fn as_str(self) -> &'static str
        ensures { result.now ≡ name_text self }
    {
        match self {
            FieldName::Path => "path",
            FieldName::Autorename => "autorename",
            FieldName::IncludeDeleted => "include_deleted",
            FieldName::Mode => "mode",
            FieldName::ClientModified => "client_modified",
            FieldName::StrictConflict => "strict_conflict",
            FieldName::ContentHash => "content_hash",
        }
    }
}

/// What a field holds.
#[derive(Clone, Copy, Debug, PartialEq, Eq)]
pub(crate) enum Kind {
    /// A text, which has to be there.
    Text,

    /// A truth value, or the default where there is none.
    Flag { default: bool },

    /// The text of a moment, or nothing.
    Moment,

    /// 64 lower-case hex digits, or nothing.
    Digest,

    /// How a commit treats a file at its path, or `add` where nothing says so.
    Mode,
}

/// What is asked of a field's value besides its kind.
#[derive(Clone, Copy, Debug, PartialEq, Eq)]
pub(crate) enum Rule {
    Any,

    /// The text is no path of a root: neither empty nor a namespace without names.
    BelowRoot,

    /// The truth value is this one, since the other isn't served.
    Only(bool),

    /// The mode is `add`, since the others aren't served.
    Adds,
}

/// A field of a route's argument.
#[derive(Clone, Copy, Debug, PartialEq, Eq)]
pub(crate) struct Field {
    pub(crate) name: FieldName,
    pub(crate) kind: Kind,
    pub(crate) rule: Rule,
}

static CREATE_FOLDER: [Field; 2] = [
    Field {
        name: FieldName::Path,
        kind: Kind::Text,
        rule: Rule::Any,
    },
    Field {
        name: FieldName::Autorename,
        kind: Kind::Flag { default: false },
        rule: Rule::Only(false),
    },
];

static GET_METADATA: [Field; 2] = [
    Field {
        name: FieldName::Path,
        kind: Kind::Text,
        rule: Rule::BelowRoot,
    },
    Field {
        name: FieldName::IncludeDeleted,
        kind: Kind::Flag { default: false },
        rule: Rule::Only(false),
    },
];

static UPLOAD: [Field; 6] = [
    Field {
        name: FieldName::Path,
        kind: Kind::Text,
        rule: Rule::Any,
    },
    Field {
        name: FieldName::Mode,
        kind: Kind::Mode,
        rule: Rule::Adds,
    },
    Field {
        name: FieldName::Autorename,
        kind: Kind::Flag { default: false },
        rule: Rule::Only(false),
    },
    Field {
        name: FieldName::ClientModified,
        kind: Kind::Moment,
        rule: Rule::Any,
    },
    Field {
        name: FieldName::StrictConflict,
        kind: Kind::Flag { default: false },
        rule: Rule::Only(false),
    },
    Field {
        name: FieldName::ContentHash,
        kind: Kind::Digest,
        rule: Rule::Any,
    },
];

static DOWNLOAD: [Field; 1] = [Field {
    name: FieldName::Path,
    kind: Kind::Text,
    rule: Rule::Any,
}];

/// The fields of a route's argument, in the order in which they are tested.
pub(crate) fn fields_of(route: Route) -> &'static [Field]
    ensures { result.now ≡ fields_of route }
{
    match route {
        Route::CreateFolder => &CREATE_FOLDER,
        Route::GetMetadata => &GET_METADATA,
        Route::Upload => &UPLOAD,
        Route::Download => &DOWNLOAD,
    }
}
