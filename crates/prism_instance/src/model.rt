//! A file under given constants, as a network that can be stepped.
ghost use Rattle.instance_start.specs.Given.{given_by};
ghost use Rattle.prism_instance.specs.Model.{IsFaultless, IsFaultless-prop};

use network::{Instance, Outlined};
use prism_check::FlatPrism;
use prism_tree::PrismOp;
use process_core::Given;

/// A judged file under given constants, without fault.
#[derive(Drop)]
pub struct PrismModel<'a> {
    pub(crate) flat: &'a FlatPrism,
    pub(crate) given: &'a [Given],
    ghost sound: { IsFaultless flat.now (given_by given.now) } by { IsFaultless-prop flat.now (given_by given.now) },
}

impl<'a> Outlined for PrismModel<'a> {
    ghost use Rattle.prism_instance.specs.Modelled.{model_is, outline_of};

    ghost outline = { outline_of };

    ghost lawful = { model_is };
}

/// A judged file under given constants, stepped as a network. What its names stand for, the values of its constants, its variables, and
/// which of its commands and reward items belong together, is found once, at the start.
pub type PrismInstance<'a> = Instance<'a, PrismOp, PrismModel<'a>>;
