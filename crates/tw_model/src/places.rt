// The numbers of tasks, by their places in the working set.
ghost use Rattle.std.specs.Prelude.{◌≡◌};
ghost use Rattle.tw_model.specs.Places.{has_uuid, id_of, uuid_at, uuid_of};

use uuid::Uuid;

/// The number of a task, counted from 1, if it has a place. It looks at one place after another, and takes no memory.
pub fn id_of(numbers: &Vec<Option<Uuid>>, uuid: Uuid) -> Option<u64>
    ensures { result ≡ id_of uuid numbers.now.items }
{
    let mut at = 0;
    while at < numbers.len() {
        if has_uuid(&numbers[at], &uuid) {
            return Some(at as u64 + 1);
        }
        at += 1;
    }
    None
}

/// The uuid of the task with a number, which is counted from 1, if that place is there and not vacant.
pub fn uuid_of(numbers: &Vec<Option<Uuid>>, id: u64) -> Option<Uuid>
    ensures { result ≡ uuid_of id numbers.now.items }
{
    if id == 0 {
        return None;
    }
    uuid_at(numbers, (id - 1) as usize)
}

fn has_uuid(place: &Option<Uuid>, uuid: &Uuid) -> bool
    ensures { result ≡ has_uuid uuid.now place.now }
{
    match place {
        Some(other) => uuid == other,
        None => false,
    }
}

fn uuid_at(numbers: &Vec<Option<Uuid>>, at: usize) -> Option<Uuid>
    ensures { result ≡ uuid_at at numbers.now.items }
{
    if at < numbers.len() {
        numbers[at]
    } else {
        None
    }
}
