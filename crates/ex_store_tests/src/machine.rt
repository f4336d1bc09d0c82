// A store that is asked and changed by texts.

pub(crate) mod flat;
pub(crate) mod forms;
pub(crate) mod listing;
pub(crate) mod marks;
pub(crate) mod names;
pub(crate) mod places;
pub(crate) mod plans;
pub(crate) mod steps;
