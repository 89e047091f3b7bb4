//! Laws of the definitions that contracts cite. They run nothing.
pub use iddqd_ord_index::laws::digits_are_least;
pub use iddqd_store::laws::{key_hashes_as_equal_keys, text_hashes_as_strings};
