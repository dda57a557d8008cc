// What callers are told of answers.
ghost use Rattle.std.specs.Prelude.{◌≡◌, Ok};
ghost use Rattle.jalibsuk.specs.Told.{and_then, count_told, deleted_in, done_in, index_record_told, record_told};

use crate::error::error_told;
use crate::{Error, IndexRecord, Record};
use store_model::Answer;

fn found(answer: Answer) -> Result<Option<Record>, Error>
    ensures { result ≡ record_told answer }
{
    match answer {
        Answer::Rec { key, value } => Ok(Some(Record { key, data: value })),
        Answer::IndexRec {
            key,
            primary_key,
            value,
        } => {
            drop(key);
            Ok(Some(Record {
                key: primary_key,
                data: value,
            }))
        }
        Answer::NotFound => Ok(None),
        other => {
            let error = error_told(&other);
            drop(other);
            Err(error)
        }
    }
}

fn found_in_index(answer: Answer) -> Result<Option<IndexRecord>, Error>
    ensures { result ≡ index_record_told answer }
{
    match answer {
        Answer::IndexRec {
            key,
            primary_key,
            value,
        } => Ok(Some(IndexRecord {
            key,
            primary_key,
            data: value,
        })),
        Answer::NotFound => Ok(None),
        Answer::Rec { key, value } => {
            drop(key);
            drop(value);
            Err(Error::NotAnIndex)
        }
        other => {
            let error = error_told(&other);
            drop(other);
            Err(error)
        }
    }
}

fn counted(answer: Answer) -> Result<u64, Error>
    ensures { result ≡ count_told answer }
{
    match answer {
        Answer::Count { count } => Ok(count),
        other => {
            let error = error_told(&other);
            drop(other);
            Err(error)
        }
    }
}

fn done(answer: Answer) -> Result<(), Error>
    ensures { result ≡ done_in answer }
{
    match answer {
        Answer::Done => Ok(()),
        other => {
            let error = error_told(&other);
            drop(other);
            Err(error)
        }
    }
}

fn deleted(answer: Answer) -> Result<bool, Error>
    ensures { result ≡ deleted_in answer }
{
    match answer {
        Answer::Done => Ok(true),
        Answer::NotFound => Ok(false),
        other => {
            let error = error_told(&other);
            drop(other);
            Err(error)
        }
    }
}

// The record that was found, or none.
pub(crate) fn found_of(answered: Result<Answer, Error>) -> Result<Option<Record>, Error>
    ensures { result ≡ and_then answered record_told }
{
    match answered {
        Ok(answer) => found(answer),
        Err(error) => Err(error),
    }
}

// The record that was found in an index, or none.
pub(crate) fn found_in_index_of(
    answered: Result<Answer, Error>,
) -> Result<Option<IndexRecord>, Error>
    ensures { result ≡ and_then answered index_record_told }
{
    match answered {
        Ok(answer) => found_in_index(answer),
        Err(error) => Err(error),
    }
}

// Whether a record was looked for: it was found, or there is none.
pub(crate) fn looked_for(answered: Result<Answer, Error>) -> Result<(), Error>
    ensures { result ≡ and_then (and_then answered record_told) (λ o. Ok tt) }
{
    match found_of(answered) {
        Ok(found) => {
            drop(found);
            Ok(())
        }
        Err(error) => Err(error),
    }
}

// The count.
pub(crate) fn counted_of(answered: Result<Answer, Error>) -> Result<u64, Error>
    ensures { result ≡ and_then answered count_told }
{
    match answered {
        Ok(answer) => counted(answer),
        Err(error) => Err(error),
    }
}

// That it was done.
pub(crate) fn done_of(answered: Result<Answer, Error>) -> Result<(), Error>
    ensures { result ≡ and_then answered done_in }
{
    match answered {
        Ok(answer) => done(answer),
        Err(error) => Err(error),
    }
}

// Whether a record was deleted.
pub(crate) fn deleted_of(answered: Result<Answer, Error>) -> Result<bool, Error>
    ensures { result ≡ and_then answered deleted_in }
{
    match answered {
        Ok(answer) => deleted(answer),
        Err(error) => Err(error),
    }
}
