//! The editions of images.

/// The edition of an image, which its fourth byte tells.
#[derive(Clone, Copy)]
pub enum Edition {
    /// The first, which has no cancel routine for a device queue and no `dequeue`.
    Former,
    /// The second, which has images of every set.
    Current,
}
