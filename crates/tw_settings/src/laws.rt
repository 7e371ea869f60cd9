//! A law of settings: the contract of a function that does nothing.
ghost use Rattle.tw_settings.specs.Readings.{EmptyIsAbsent};

/// Settings in which the last value of a name is empty say what they say without that name, whatever is read in them.
pub fn an_empty_value_is_as_none()
    ensures { EmptyIsAbsent }
{}
