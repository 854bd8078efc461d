//! What a set was read from, as it is quoted.

use drvhost_devices::reading::begins_image;
use verifier_names::Origin;

/// What a set was read from that has these bytes.
pub fn origin_of(bytes: &[u8]) -> Origin<'_> {
    if begins_image(bytes) {
        Origin::Image
    } else {
        Origin::Text(bytes)
    }
}
