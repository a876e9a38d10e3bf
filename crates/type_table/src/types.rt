// The types of a schema as they are lent: its items, the table that is made of them, and how many types there are.

ghost use Rattle.type_table.specs.Tables.{GoodTypes};

#[derive(Clone, Copy)]
pub struct Types<'a> {
    pub words: &'a [u64],
    pub table: &'a [u64],
    pub count: u64,
    pub ghost good: { GoodTypes words.now table.now count },
}
