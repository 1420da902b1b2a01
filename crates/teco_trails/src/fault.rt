//! Why a part of the search stops.
use teco_bounds::workspace::Stop;
use teco_linear::LinearFault;
use teco_paths::fault::PathFault;
pub use teco_paths::search::SearchRefusal;
use teco_rows::fault::RowFault;

// Why a part of the search stops: it gives up; it is begun again with a cut point more, or with fewer
// numbers that are taken to be tame; or what it rests on was not the last word.
#[derive(Clone, Copy)]
pub enum SearchStop {
    Refused(SearchRefusal),
    CutAt(usize),
    Wild,
    Unstable,
}

impl From<SearchRefusal> for SearchStop {
    fn from(refused: SearchRefusal) -> SearchStop {
        SearchStop::Refused(refused)
    }
}

impl From<Stop> for SearchStop {
    fn from(stop: Stop) -> SearchStop {
        SearchStop::Refused(match stop {
            Stop::Memory => SearchRefusal::Memory,
            Stop::TooMuch => SearchRefusal::TooMuch(None),
            Stop::Condition(number) => SearchRefusal::Condition(number),
            Stop::Size => SearchRefusal::Size,
            Stop::Steps(number) => SearchRefusal::Steps(number),
            Stop::Wild => return SearchStop::Wild,
        })
    }
}

impl From<PathFault> for SearchStop {
    fn from(refused: PathFault) -> SearchStop {
        SearchStop::Refused(match refused {
            PathFault::NotTold(number) => SearchRefusal::NotTold(number),
            PathFault::NotOpen(number) => SearchRefusal::NotOpen(number),
            PathFault::Condition(number) => SearchRefusal::Condition(number),
            PathFault::Memory => SearchRefusal::Memory,
            PathFault::TooLong => SearchRefusal::TooMuch(None),
            _ => SearchRefusal::NotAccepted(refused),
        })
    }
}

impl From<RowFault> for SearchStop {
    fn from(refused: RowFault) -> SearchStop {
        SearchStop::Refused(match refused {
            RowFault::Linear(LinearFault::Memory) => SearchRefusal::Memory,
            _ => SearchRefusal::TooMuch(None),
        })
    }
}
