//! What is left of a request that was served, for its caller to tell.

ghost use Rattle.std.specs.Prelude.{◌≡◌, None};
ghost use Rattle.ioa_serving.specs.Serving.{reports_of};

use crate::status::Status;

/// What a request that was served comes to: the exit status, and the reports of a run or what a watch counted, where they are to be told.
#[derive(Drop)]
pub struct Served {
    pub status: Status,
    pub reports: Option<String>,
}

/// It comes to this status, and nothing is left to tell.
pub fn silent(status: Status) -> Served
    ensures status { result.status ≡ status }
    ensures reports { reports_of result ≡ None }
{
    Served {
        status,
        reports: None,
    }
}
