// The text of a pattern over numbered tags, and how it is read: definitions. No code of the product.
