/// What a number is written as (ISO 7185:1990, 6.9.3).
#[derive(Clone, Copy)]
pub enum Form {
    Integer,
    Character,
    Boolean,
}
