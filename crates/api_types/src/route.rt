/// A route that is served.
#[derive(Clone, Copy, Debug, PartialEq, Eq)]
pub enum Route {
    CreateFolder,
    GetMetadata,
    Upload,
    Download,
}

const ROUTES: [Route; 4] = [
    Route::CreateFolder,
    Route::GetMetadata,
    Route::Upload,
    Route::Download,
];

impl Route {
    ghost use Rattle.std.specs.Prelude.{◌≡◌, ◌≢◌, IfSome, IfNone};
    ghost use Rattle.api_types.specs.Routes.{function_of, has_content, route_of, target_of};

    /// The route of a request's target, which is compared byte by byte.
    pub fn of(target: &[u8]) -> Option<Route>
        ensures { result ≡ route_of target.now }
    {
        ROUTES
            .iter()
            .copied()
            .find(|route| route.target().as_bytes() == target)
    }

    /// The target of its requests.
    pub fn target(self) -> &'static str
        ensures { result.now ≡ target_of self }
    {
        match self {
            Route::CreateFolder => "/2/files/create_folder_v2",
            Route::GetMetadata => "/2/files/get_metadata",
            Route::Upload => "/2/files/upload",
            Route::Download => "/2/files/download",
        }
    }

    /// The function that it calls, as complaints name it: its target without the part before.
    pub fn function(self) -> &'static str
        ensures { result.now ≡ function_of self }
    {
        match self {
            Route::CreateFolder => "files/create_folder_v2",
            Route::GetMetadata => "files/get_metadata",
            Route::Upload => "files/upload",
            Route::Download => "files/download",
        }
    }

    /// Whether the argument of its requests stands in a header, since their body or that of the reply is a file's
    /// content.
    pub fn has_content(self) -> bool
        ensures { result ≡ has_content self }
    {
        match self {
            Route::CreateFolder | Route::GetMetadata => false,
            Route::Upload | Route::Download => true,
        }
    }
}
