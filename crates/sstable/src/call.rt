// A call on a writer, as a value and not as a closure: clauses speak of each call of a list.

#[derive(Clone, Copy, PartialEq, Debug)]
pub enum Call<'a, V> {
    Insert(&'a [u8], V),
    InsertKey(&'a [u8]),
    InsertValue(V),
    Finish,
}
