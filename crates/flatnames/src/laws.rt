// What holds of every text.
ghost use Rattle.flatnames.specs.Laws.{Keeps, DropsNothing};

// No later declaration hides a name.
pub fn keeps()
    ensures { Keeps }
{}

// A variable for each statement that declares one, an item for each constraint.
pub fn drops_nothing()
    ensures { DropsNothing }
{}
