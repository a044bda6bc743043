//! The mount of `/`.

use fs_model::numbers::StoreNo;
use fs_model::prefix::Prefix;

/// The under-store that is mounted at `/`, and the key of `/` there.
#[derive(Debug, Drop)]
pub struct Mount {
    pub store: StoreNo,
    pub key: Prefix,
}
