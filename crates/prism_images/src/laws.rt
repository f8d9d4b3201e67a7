// Laws of images: a function that does nothing, whose contract is the laws.

ghost use Rattle.prism_images.specs.Laws.{AgreeingIsNoNumber, ImageFits, ImageHasForm, ImageHasLiterals, ImageHasNewNames, ImageHasOperands, ImageSeenAlike, ImageTypedAlike, TypedImageSeenAlike};

/// An image is seen as its expression, value and bound at once, where new names are seen as the old
/// ones, nodes have their operands and no `<=>` stands between two numbers; so it is where the
/// expression has a type and no name of the type bool has a number for its value. It has the type
/// that the expression has, and no misfit where that has none. Its nodes have their operands, its
/// literals stay in normal form and not negative, and its names are the new ones, in order.
pub fn image_laws()
    // Values.
    ensures seen { ImageSeenAlike }
    ensures typed { TypedImageSeenAlike }
    ensures agreeing { AgreeingIsNoNumber }

    // Types.
    ensures types { ImageTypedAlike }
    ensures misfits { ImageFits }

    // Form and names.
    ensures operands { ImageHasOperands }
    ensures literals { ImageHasLiterals }
    ensures form { ImageHasForm }
    ensures names { ImageHasNewNames }
{}
