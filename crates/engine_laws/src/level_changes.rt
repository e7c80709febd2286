//! The law of displayed levels. Its function does nothing: what is proved is what its contract says.
ghost use Rattle.engine_laws.specs.LevelLaws.{LevelsStay};

/// A level shows as much after a message as before it, of as many orders, unless an event of the message has an order of the level, or
/// the message is a replace that names a live order of the level. It holds of each product and message, and of each state in which no
/// two live orders have one number and none has a number above the last one given, as it is in every core.
pub fn levels_change_only_where_told()
    ensures { LevelsStay }
{}
