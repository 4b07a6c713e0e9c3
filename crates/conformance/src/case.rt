use case_fields::CaseFault;

/// A case: a call and its arguments. The answer that is expected stands in the file of answers, and
/// isn't read.
#[derive(Clone, Copy, Debug)]
pub struct Case<'a> {
    /// The line up to its answer.
    pub question: &'a str,
    pub call: &'a str,
    /// What stands behind the call, with spaces between the arguments.
    fields: &'a str,
}

impl<'a> Case<'a> {
    /// The case of a line: a call, its arguments behind it, and ` = ` with an answer.
    pub fn read(line: &'a str) -> Option<Case<'a>> {
        let (question, _answer) = line.split_once(" = ")?;
        let (call, fields) = question.split_once(' ')?;
        Some(Case {
            question,
            call,
            fields,
        })
    }

    /// The argument of a call that has one.
    pub fn argument(&self) -> Result<&'a str, CaseFault> {
        only_field(self.fields)
    }

    /// The arguments of a call that has two.
    pub fn arguments(&self) -> Result<(&'a str, &'a str), CaseFault> {
        let (first, second) = first_field(self.fields)?;
        Ok((first, only_field(second)?))
    }

    /// The arguments of a call that has three.
    pub fn three_arguments(&self) -> Result<(&'a str, &'a str, &'a str), CaseFault> {
        let (first, others) = first_field(self.fields)?;
        let (second, third) = first_field(others)?;
        Ok((first, second, only_field(third)?))
    }

    /// The arguments of a call that has four.
    pub fn four_arguments(&self) -> Result<(&'a str, &'a str, &'a str, &'a str), CaseFault> {
        let (first, others) = first_field(self.fields)?;
        let (second, others) = first_field(others)?;
        let (third, fourth) = first_field(others)?;
        Ok((first, second, third, only_field(fourth)?))
    }

    /// The arguments of a call that has any number of them, with spaces between them.
    pub fn fields(&self) -> &'a str {
        self.fields
    }
}

// The first of several fields, and the others.
fn first_field(fields: &str) -> Result<(&str, &str), CaseFault> {
    match fields.split_once(' ') {
        Some(parts) => Ok(parts),
        None => Err(CaseFault::Bad),
    }
}

// A field that is the last one.
fn only_field(field: &str) -> Result<&str, CaseFault> {
    if field.contains(' ') {
        return Err(CaseFault::Bad);
    }
    Ok(field)
}
