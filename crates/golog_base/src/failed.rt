// What a call to the outside answers that failed.
use thiserror::Error;

/// A call to the outside that failed.
#[derive(Debug, Drop, Error)]
#[error("the outside failed")]
pub struct Failed;
