ghost use Rattle.fm_workers_crew.specs.Again.{CrewsComeAgain};

/// Crews may follow crews on one pool: of a pass that is known to be whole, tasks are never too many before the pool's
/// passes are, where no number was gathered 4,294,967,295 times.
pub fn crews_come_again()
    ensures { CrewsComeAgain }
{}
