mod devices;
mod runs;
mod steady;
mod values;
