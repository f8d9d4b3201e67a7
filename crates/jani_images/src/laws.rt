// The law of images: a function that does nothing, whose contract is the law.

ghost use Rattle.jani_images.specs.Laws.{ImageSeenAlike};

/// An image is seen as its expression, value and bound at once, where new names are seen as the old ones and nodes have their
/// operands. Nothing is done.
pub fn image_law()
    ensures { ImageSeenAlike }
{}
